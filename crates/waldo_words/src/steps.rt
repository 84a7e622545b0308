//! The text of a schedule.
ghost use Rattle.std.specs.Prelude.{◌≡◌, ◌<◌, ◌≤◌, IfOk, IfSome};
ghost use Rattle.std.specs.Option.{ok_or};
ghost use Rattle.text_reading.specs.Reading.{Gives};
ghost use Rattle.waldo_words.specs.Legal.{IsSchedule, IsStep};
ghost use Rattle.waldo_words.specs.Steps.{actor_of, pair_of, schedule_of, step_of};
ghost use Rattle.waldo_words.specs.declared.faults.ValueFault.TheVariants as fault;

use crate::faults::ValueFault;
use crate::numbers::within;
use crate::schedule::{Schedule, Step};
use std::alloc::Global;
use text_reading::{count_pieces, cut};

// The most steps of a schedule.
const MOST_STEPS: usize = 4096;

fn actor(text: &[u8]) -> Option<u8>
    ensures value { result ≡ actor_of text.now }
    ensures few { IfSome result (λ a. a < 16) }
{
    match within(0, 15, text) {
        None => None,
        Some(actor) => Some(actor as u8),
    }
}

// An actor and a number up to most, with a point between them.
#[tactic(auto, unfolding(crate::specs::Steps::pair_of))]
fn pair(most: u8, text: &[u8]) -> Option<(u8, u8)>
    ensures value { result ≡ pair_of most text.now }
    ensures limits { IfSome result (λ p. (p.0 < 16) × (p.1 ≤ most)) }
{
    let (front, rest) = cut(text, b'.');
    let actor = actor(front)?;
    let second = within(0, u64::from(most), rest?)?;
    Some((actor, second as u8))
}

// The step that a token says.
#[tactic(auto, unfolding(crate::specs::Steps::step_of))]
fn step(token: &[u8]) -> Option<Step>
    ensures value { result ≡ step_of token.now }
    ensures legal { IfSome result IsStep }
{
    match token {
        [b'd', text @ ..] => {
            let actor = actor(text)?;
            Some(Step::Draw { actor })
        }
        [b'p', text @ ..] => {
            let (actor, server) = pair(2, text)?;
            Some(Step::Place { actor, server })
        }
        [b'l', text @ ..] => {
            let (actor, server) = pair(2, text)?;
            Some(Step::Look { actor, server })
        }
        [b'f', text @ ..] => {
            let actor = actor(text)?;
            Some(Step::Fix { actor })
        }
        [b'a', text @ ..] => {
            let (actor, query) = pair(15, text)?;
            Some(Step::Answer { actor, query })
        }
        _ => None,
    }
}

/// The schedule of a text: 1 to 4,096 tokens, with single spaces between them.
#[tactic(auto, using(crate::proofs::StepLaws::too_many, crate::proofs::StepLaws::bad_step, crate::proofs::StepLaws::fewer_left))]
pub(crate) fn read_schedule(alloc: Global, text: &[u8]) -> Result<Schedule, ValueFault>
    ensures exact { Gives fault.Memory (λ s. s) result (ok_or (schedule_of text.now) fault.Refused) }
    ensures legal { IfOk result IsSchedule }
{
    let had = count_pieces(text, b' ');
    if had > MOST_STEPS {
        return Err(ValueFault::Refused);
    }
    let mut steps = Vec::with_capacity(alloc, had)?;
    let mut rest = Some(text);
    while let Some(bytes) = rest {
        let (token, more) = cut(bytes, b' ');
        match step(token) {
            None => return Err(ValueFault::Refused),
            Some(step) => steps.push(step)?,
        }
        rest = more;
    }
    Ok(Schedule::from_vec(steps))
}
