// What a call returns: the number, the line and the column of a refusal, or zeros.

ghost use Rattle.std.specs.Prelude.{◌≡◌, ◌≤◌};
ghost use Rattle.base.specs.Limits as limits;
ghost use Rattle.sheet.specs.Verdict.{refusal_line};
ghost use Rattle.call.specs.Inner.Replies.{refusal_reply, fault_reply};

use definition_state::Fault;
use sheet::Refusal;

#[derive(Clone, Copy)]
pub struct Reply {
    pub number: u16,
    pub line: u16,
    pub col: u16,
}

// Questions 1 to 6.
pub fn of_refusal(refusal: Refusal) -> Reply
    requires { refusal_line refusal ≤ limits.largest_value }
    ensures { result ≡ refusal_reply refusal }
{
    Reply {
        number: refusal.number(),
        line: refusal.line() as u16,
        col: 0,
    }
}

// Question 7.
pub fn of_fault(fault: Fault) -> Reply
    ensures { result ≡ fault_reply fault }
{
    match fault {
        Fault::Undefined(line, col) => Reply {
            number: 11,
            line,
            col,
        },
        Fault::UsedBefore(line, col) => Reply {
            number: 12,
            line,
            col,
        },
        Fault::Lengths(line, col) => Reply {
            number: 13,
            line,
            col,
        },
        Fault::IndexVariable => Reply {
            number: 14,
            line: 0,
            col: 0,
        },
    }
}
