//! The text and the status of a match that was served.
ghost use Rattle.std.specs.Prelude.{◌≡◌, ◌≤◌, ◌++◌, ℕ, IfOk, OnOk, codes, length, string_bytes};
ghost use Rattle.drill.specs.Report.{alarm_lines};
ghost use Rattle.frame_table.specs.Calls.{IsPassOf};
ghost use Rattle.game_orders.specs.declared.limits.TheConstants.{MAX_CLIENTS};
ghost use Rattle.command_answers.specs.Answer.{reply_of};
ghost use Rattle.match_serve.specs.Passes.{columns_of};
ghost use Rattle.match_serve.specs.Serve.{IsOver};
ghost use Rattle.serve_command.specs.ServeText.{end_text, is_memory, link_line, link_lines};
ghost use Rattle.serve_command.specs.ServeText.{served_reply, served_status, served_text};

use crate::causes::read_name;
use base::NoMemory;
use command_answers::{Answer, DONE, OUT_OF_MEMORY};
use drill::{add_alarms, add_columns, add_end_line, add_server_head, add_world};
use frame_core::{Columns, Sim};
use game_orders::MAX_CLIENTS;
use match_run::longest;
use match_serve::{LinkEnd, Served};
use server_core::Board;
use std::alloc::Global;
use std::fmt::Write;
use std::sync::Wait;

/// The answer of `serve` by what a match leaves: the columns of its table, how each link ended, the
/// world and the alarms. The status is 6 where memory ran out for a link.
pub(crate) fn served_answer<S: Sim, R: Wait>(
    rt: &R,
    alloc: Global,
    served: Served<S>,
) -> Result<Answer<'static>, NoMemory>
    requires pass { IsPassOf served.table served.pass }
    requires few { length served.ends ≤ MAX_CLIENTS }
    ensures { (clients : ℕ) → IsOver clients served.table served.pass →
        IfOk result (λ answer. reply_of answer
        ≡ served_reply S.hash_of S.summary_of (columns_of served.pass) served.ends
        served.sim served.board) }
{
    let Served {
        sim,
        table,
        pass,
        board,
        ends,
        taken: _,
    } = served;
    let columns = table.close(rt, pass);
    closed_answer(alloc, &columns, ends.as_slice(), &sim, &board)
}

/// The same, once the table is closed.
pub(crate) fn closed_answer<S: Sim>(
    alloc: Global,
    columns: &Columns,
    ends: &[LinkEnd],
    sim: &S,
    board: &Board,
) -> Result<Answer<'static>, NoMemory>
    requires { length ends.now ≤ MAX_CLIENTS }
    ensures { IfOk result (λ answer. reply_of answer
        ≡ served_reply S.hash_of S.summary_of columns.now ends.now sim.now board.now) }
{
    let text = lines(alloc, columns, ends, sim, board)?;
    Ok(Answer {
        status: status(ends),
        text: text.into_bytes(),
        write: None,
    })
}

/// The lines of the text.
fn lines<S: Sim>(
    alloc: Global,
    columns: &Columns,
    ends: &[LinkEnd],
    sim: &S,
    board: &Board,
) -> Result<String, NoMemory>
    requires { length ends.now ≤ MAX_CLIENTS }
    ensures { IfOk result (λ text. string_bytes text
        ≡ served_text S.hash_of S.summary_of columns.now ends.now sim.now board.now) }
{
    let mut text = String::new(alloc);
    add_columns(&mut text, columns)?;
    add_links(&mut text, ends)?;
    add_server_head(&mut text, longest(columns))?;
    add_world(&mut text, sim)?;
    add_alarms(&mut text, board)?;
    add_end_line(&mut text)?;
    Ok(text)
}

/// The status of a match whose links ended so.
fn status(ends: &[LinkEnd]) -> u8
    ensures { result ≡ served_status ends.now }
{
    for how in ends {
        if is_memory(how) {
            return OUT_OF_MEMORY;
        }
    }
    DONE
}

/// Whether memory ran out for the link.
fn is_memory(how: &LinkEnd) -> bool
    ensures { result ≡ is_memory how.now }
{
    match how {
        LinkEnd::Ended | LinkEnd::Refused(_) | LinkEnd::Kicked(_) | LinkEnd::Lost => false,
        LinkEnd::Memory => true,
    }
}

/// Adds the line of each link.
fn add_links(text: &mut String, ends: &[LinkEnd]) -> Result<(), NoMemory>
    requires { length ends.now ≤ MAX_CLIENTS }
    ensures { OnOk result (string_bytes text.new ≡ string_bytes text.old ++ link_lines 0 ends.now) }
{
    for (c, how) in ends.iter().enumerate() {
        add_link(text, c as u8, *how)?;
    }
    Ok(())
}

/// Adds the line of the link of client `c`.
#[tactic(auto, unfolding(crate::specs::ServeText::link_line))]
fn add_link(text: &mut String, c: u8, how: LinkEnd) -> Result<(), NoMemory>
    ensures { OnOk result (string_bytes text.new ≡ string_bytes text.old ++ link_line c how) }
{
    write!(text, "link {c} ")?;
    add_end(text, how)?;
    writeln!(text)
}

/// Adds how a link ended.
fn add_end(text: &mut String, how: LinkEnd) -> Result<(), NoMemory>
    ensures { OnOk result (string_bytes text.new ≡ string_bytes text.old ++ end_text how) }
{
    match how {
        LinkEnd::Ended => write!(text, "ended"),
        LinkEnd::Refused(cause) => add_refusal(text, read_name(cause)),
        LinkEnd::Kicked(at) => write!(text, "kicked {at}"),
        LinkEnd::Lost => write!(text, "lost"),
        LinkEnd::Memory => write!(text, "memory"),
    }
}

/// Adds that the bytes of a link were refused for this cause.
fn add_refusal(text: &mut String, cause: &str) -> Result<(), NoMemory>
    ensures { OnOk result (string_bytes text.new
        ≡ string_bytes text.old ++ (codes "refused " ++ cause.now)) }
{
    write!(text, "refused {cause}")
}
