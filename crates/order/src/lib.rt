// Walks, definitions and turns, as definitions: see specs/. What the scheduler's call comes to stands here.

#![tactic(auto)]

// Why a list of definitions is not scheduled: a count or a definition is out of bounds, or a buffer is too short.
#[derive(Clone, Copy, PartialEq, Eq, Debug)]
pub enum Refused {
    BadList,
}

// Of a list that is scheduled: are all statements placed?
pub type ScheduleOutcome = Result<bool, Refused>;
