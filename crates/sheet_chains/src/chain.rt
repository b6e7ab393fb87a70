// What a chain comes to. It is kept as one number of lent memory.

ghost use Rattle.std.specs.Prelude.{◌≡◌};
ghost use Rattle.sheet_chains.specs.Inner.Numbers.{chain_code, chain_in, one_more};

#[derive(Clone, Copy)]
pub(crate) struct Chain {
    // Each member is a Var.
    pub(crate) vars: bool,
    // It ends, after an odd number of members, or after an even number.
    pub(crate) odd: bool,
    pub(crate) even: bool,
}

impl From<u64> for Chain {
    ghost from_gives = { λ number chain. chain ≡ chain_in number };

    fn from(number: u64) -> Chain {
        Chain {
            vars: number % 2 == 1,
            odd: number / 2 % 2 == 1,
            even: number / 4 % 2 == 1,
        }
    }
}

impl From<Chain> for u64 {
    ghost from_gives = { λ chain number. number ≡ chain_code chain };

    fn from(chain: Chain) -> u64 {
        u64::from(chain.vars) + 2 * u64::from(chain.odd) + 4 * u64::from(chain.even)
    }
}

impl Chain {
    // Nothing: all Vars, and even.
    pub(crate) const NO_MEMBER: Chain = Chain {
        vars: true,
        odd: false,
        even: true,
    };

    pub(crate) const NO_END: Chain = Chain {
        vars: true,
        odd: false,
        even: false,
    };

    // With one member more in front: odd and even change places.
    pub(crate) fn after(self, var: bool) -> Chain
        ensures { result ≡ one_more var self }
    {
        Chain {
            vars: var && self.vars,
            odd: self.even,
            even: self.odd,
        }
    }
}
