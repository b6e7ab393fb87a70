// Definitions that a step of the analysis records: nothing after a fault. The table of schedules behind them stays.

ghost use Rattle.definition_record.specs.Inner.Front.{FitsFront};
ghost use Rattle.definition_record.specs.Inner.Records.{NamesFit, OneRecorded, NamesRecorded, EachRecorded, SomeRecorded};

use crate::each::{define_each, less};
use answer_blocks::answers_of;
use definition_state::Progress;
use definition_walk::index::push_definition;
use names::Names;

// The statement uses names under the empty name.
pub fn record_one(statement: usize, used: Names, p: Progress, work: &mut [u64]) -> Progress
    requires { FitsFront p work.old 1 }
    ensures { OneRecorded statement used p work.old result work.new }
{
    if p.is_sound() {
        let width = p.width;
        let end = work.len() - answers_of(width);
        let count = p.count;
        push_definition(statement, 0, used, count, &mut work[..end], width);
        return p.with_count(count + 1);
    }
    p
}

// The statement defines each name from the names `used`, without itself where `without`.
fn record_names(
    statement: usize,
    names: Names,
    used: Names,
    without: bool,
    p: Progress,
    work: &mut [u64],
) -> Progress
    requires { NamesFit 0 names p work.old }
    ensures { NamesRecorded statement names used without p work.old result work.new }
{
    if p.is_sound() {
        let width = p.width;
        let end = work.len() - answers_of(width);
        let count = p.count;
        let n = define_each(
            statement,
            names,
            used,
            without,
            count,
            &mut work[..end],
            width,
        );
        return p.with_count(n);
    }
    p
}

// The same, and the empty name where there is no name.
pub fn record_each(
    statement: usize,
    names: Names,
    used: Names,
    without: bool,
    p: Progress,
    work: &mut [u64],
) -> Progress
    requires { NamesFit 1 names p work.old }
    ensures { EachRecorded statement names used without p work.old result work.new }
{
    if names.is_empty() {
        let from = less(used, 0, without);
        return record_one(statement, from, p, work);
    }
    record_names(statement, names, used, without, p, work)
}

// Each name from all names `used`, and nothing where there is no name.
pub fn record_some(
    statement: usize,
    names: Names,
    used: Names,
    p: Progress,
    work: &mut [u64],
) -> Progress
    requires { NamesFit 0 names p work.old }
    ensures { SomeRecorded statement names used p work.old result work.new }
{
    record_names(statement, names, used, false, p, work)
}
