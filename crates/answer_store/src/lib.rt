// The words of a query's answer are written where the answer's text is read from (`Stored` of `answer_text`).

#![tactic(auto)]

pub mod block;
pub mod places;
pub mod query;
