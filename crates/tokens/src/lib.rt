// A cursor over a block of tokens.
#![tactic(auto)]

ghost use Rattle.std.specs.Prelude.{◌≡◌, ◌+◌, ◌<◌, ◌≤◌, ◌^◌};
ghost use Rattle.refusal.specs.Checks.{fault_of};
ghost use Rattle.tokens.specs.Steps.{property_at, step_at, step_number, token_checks};

const BEGIN_NODE: u32 = 1;

const END_NODE: u32 = 2;

const PROPERTY: u32 = 3;

const NOP: u32 = 4;

const END: u32 = 9;

// Document 01: "a place in the tree that moves on token by token".
#[derive(Clone, Copy, Debug, PartialEq, Eq)]
pub struct Cursor {
    pub at: usize,
}

// A token, with the cursor of what follows it: a begin token's name, or the next token. A fault is a kind of its own, since callers pass it over
// or refuse it as they do other kinds.
#[derive(Clone, Copy, Debug, PartialEq, Eq)]
pub enum Step {
    BeginNode {
        at: usize,
        name: Cursor,
    },
    EndNode {
        at: usize,
        next: Cursor,
    },
    Property {
        at: usize,
        value: usize,
        length: usize,
        name: usize,
        next: Cursor,
    },
    Nop {
        at: usize,
        next: Cursor,
    },
    End {
        at: usize,
    },
    Fault {
        at: usize,
    },
}

// The property at a place, where its value ends within the block.
#[tactic(auto, unfolding(crate::specs::Steps::padded, crate::specs::Steps::property_at))]
fn property_at(s: &[u8], end: usize, at: usize) -> Step
    requires { at + 4 ≤ end }
    ensures { result ≡ property_at s.now end at }
{
    if end - at < 12 {
        return Step::Fault { at };
    }
    // by `as`: usize has no From<u32>
    let length = cells::cell_at(s, at + 4) as usize;
    let name = cells::cell_at(s, at + 8) as usize;
    let value = at + 12;
    let room = length.next_multiple_of(4);
    if end - value < room {
        return Step::Fault { at };
    }
    Step::Property {
        at,
        value,
        length,
        name,
        next: Cursor { at: value + room },
    }
}

impl Cursor {
    // The token at the cursor, in a block that ends at `end`; a fault is 6.
    #[tactic(auto, using(crate::proofs::StepNumbers::token_steps))]
    pub fn step(self, s: &[u8], end: usize) -> Step
        ensures value { result ≡ step_at s.now end self.at }
        ensures result_value { step_number result ≡ fault_of (token_checks s.now end self.at) }
    {
        let at = self.at;
        if end <= at || end - at < 4 {
            return Step::Fault { at: end };
        }
        match cells::cell_at(s, at) {
            BEGIN_NODE => Step::BeginNode {
                at,
                name: Cursor { at: at + 4 },
            },
            END_NODE => Step::EndNode {
                at,
                next: Cursor { at: at + 4 },
            },
            PROPERTY => property_at(s, end, at),
            NOP => Step::Nop {
                at,
                next: Cursor { at: at + 4 },
            },
            END => Step::End { at },
            _ => Step::Fault { at },
        }
    }
}
