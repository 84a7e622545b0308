//! The event of a step, and what its reply is reported as.
ghost use Rattle.std.specs.Prelude.{◌≡◌, ◌+◌, ◌^◌, ◌<◌, if◌then◌else◌, length, option_to_list, slice_get, slice_set, slice_index_or};
ghost use Rattle.prg_chacha.specs.Prg.{derive_of};
ghost use Rattle.schedule_play.specs.Plays.{seen};
ghost use Rattle.schedule_play.specs.Ready.{is_drawn};
ghost use Rattle.schedule_play.specs.Stages.{actor_in, aggregate_in, in_rounds, is_asked, lines_of, server_in, who_of};
ghost use Rattle.waldo_core.specs.Step.{is_altered};

use crate::setting::Setting;
use crate::style::Style;
use report_lines::{Line, Who};
use table_schema::Aggregate;
use waldo_core::Reply;
use waldo_words::Step;

/// Whose step it is.
pub(crate) fn actor_in(step: Step) -> u8
    ensures { result ≡ actor_in step }
{
    match step {
        Step::Draw { actor }
        | Step::Place { actor, .. }
        | Step::Look { actor, .. }
        | Step::Fix { actor }
        | Step::Answer { actor, .. } => actor,
    }
}

// The server of a step, if it has one.
fn server_in(step: Step) -> u8
    ensures { result ≡ server_in step }
{
    match step {
        Step::Place { server, .. } | Step::Look { server, .. } => server,
        _ => 0,
    }
}

// What the query of a step asks for.
fn aggregate_in(setting: &Setting<'_>, step: Step) -> Aggregate
    ensures { result ≡ aggregate_in (seen setting.now) step }
{
    match step {
        Step::Answer { query, .. } => match setting.queries.get(usize::from(query)) {
            Some(query) => query.aggregate,
            None => Aggregate::Count,
        },
        _ => Aggregate::Count,
    }
}

// Whose answer a line gives.
fn who_of(style: Style, actor: u8, round: u64) -> Who
    ensures { result ≡ who_of style actor round }
{
    match style {
        Style::Queries => Who::Single(round),
        Style::Rounds => Who::Round { actor, round },
    }
}

// A line that is left out where queries are asked once each.
fn in_rounds(style: Style, line: Line) -> Option<Line>
    ensures { option_to_list result ≡ in_rounds style line }
{
    match style {
        Style::Queries => None,
        Style::Rounds => Some(line),
    }
}

/// The line of a reply, if it has one. The actor has had `round` rounds.
pub(crate) fn line_of(
    setting: &Setting<'_>,
    style: Style,
    step: Step,
    round: u64,
    reply: Reply,
) -> Option<Line>
    ensures { option_to_list result ≡ lines_of (seen setting.now) style step round reply }
{
    let actor = actor_in(step);
    let server = server_in(step);
    let aggregate = aggregate_in(setting, step);
    let who = who_of(style, actor, round);
    match reply {
        Reply::Drew { place } => in_rounds(style, Line::Draw { actor, place }),
        Reply::Looked { prefix } => in_rounds(
            style,
            Line::Look {
                actor,
                server,
                prefix,
            },
        ),
        Reply::Again { server, had, floor } => Some(Line::Again {
            who,
            server,
            had,
            floor,
        }),
        Reply::Answered { rows, total } => Some(Line::Answer {
            who,
            rows,
            aggregate,
            total,
        }),
        Reply::Altered {
            rows,
            total,
            weighted,
        } => Some(Line::Altered {
            who,
            rows,
            total,
            weighted,
        }),
        _ => None,
    }
}

/// Whether a row was drawn.
pub(crate) fn is_drawn(reply: Reply) -> bool
    ensures { result ≡ is_drawn reply }
{
    matches!(reply, Reply::Drew { .. })
}

/// Whether the reply counts as one of its actor's rounds.
pub(crate) fn is_asked(reply: Reply) -> bool
    ensures { result ≡ is_asked reply }
{
    matches!(
        reply,
        Reply::Again { .. } | Reply::Answered { .. } | Reply::Altered { .. }
    )
}

/// Whether the check refused what was opened.
pub(crate) fn is_altered(reply: Reply) -> bool
    ensures { result ≡ is_altered reply }
{
    matches!(reply, Reply::Altered { .. })
}
