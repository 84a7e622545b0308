//! An actor's steps.
ghost use Rattle.std.specs.Prelude.{ℕ, ◌≡◌, ◌<◌, ◌≤◌, ◌+◌, ◌^◌, IfOk, IfSome, OnErr, Some, is_some, length, not, ◌||◌};
ghost use Rattle.agreed_rows.specs.Servers.{IsServer, KeepsFirst};
ghost use Rattle.waldo_core.specs.Core.{is_pending as pending_in};
ghost use Rattle.waldo_core.specs.Step.{with_draw};
ghost use Rattle.waldo_core.specs.Held.{AreFirst, CanPlace, Fixed, Keeps, Looks, Places};
ghost use Rattle.waldo_core.specs.Held.{fresh_state, log_of, next_server_of, seen_actor, seen_draw};

use crate::draw::OpenDraw;
use crate::events::Reply;
use crate::logs::Logs;
use crate::snapshots::Snapshots;
use agreed_rows::Agreed;
use prefix_log::Snapshot;
use ring128::Memory;
use scan_chunks::Shelf;
use std::alloc::Global;
use std::mem;
use table_schema::Widths;
use ticket_place::Sight;

/// An actor: the greatest number of rows that it has seen, its open draw, and what its fixes found.
#[derive(Drop)]
pub(crate) struct ActorState {
    pub floor: u64,
    pub draw: Option<OpenDraw>,
    pub snapshots: Snapshots,
}

impl ActorState {
    /// An actor that has seen nothing.
    pub(crate) fn new() -> ActorState
        ensures { result ≡ fresh_state }
    {
        ActorState {
            floor: 0,
            draw: None,
            snapshots: Snapshots::Unfixed,
        }
    }

    /// Whether it may draw: it has no open draw, and no fixes are under way.
    pub(crate) fn may_draw(&self) -> bool
        ensures { let a = seen_actor ⟦<Snapshot as Shelf>⟧.held self.now in result ≡ not (is_some a.draw || pending_in a.fixes) }
    {
        self.draw.is_none() && !self.snapshots.is_pending()
    }

    /// Opens a draw.
    pub(crate) fn begin(&mut self, draw: OpenDraw)
        ensures { self.new ≡ record { floor = self.old.floor; draw = Some draw; snapshots = Snapshots.Unfixed } }
    {
        self.draw = Some(draw);
        self.snapshots.clear(); // an agreement ends here
    }

    /// Places the piece of the open draw at a server, unless it was placed there before.
    pub(crate) fn place(&mut self, logs: &mut Logs, server: u8) -> Option<Reply>
        requires { CanPlace server logs.old self.old }
        ensures { Places ⟦<Snapshot as Shelf>⟧.held server logs.old self.old logs.new self.new result }
    {
        if server > 2 || self.snapshots.is_pending() {
            return None;
        }
        let Some(draw) = &mut self.draw else {
            return None;
        };
        let piece = draw.hand_out(server);
        logs.place(server, draw.place, piece);
        self.go_on();
        Some(Reply::Placed)
    }

    // Goes on with the open draw. What the fixes found ends here; where no piece is left, the draw is closed, and the floor rises above
    // its place.
    fn go_on(&mut self)
        requires { IfSome self.old.draw (λ d. d.place + 1 < 2 ^ 64) }
        ensures seen { IfSome self.old.draw (λ d. let held = ⟦<Snapshot as Shelf>⟧.held in
            seen_actor held self.new ≡ with_draw (seen_actor held self.old) (seen_draw d)) }
        ensures left { IfSome self.new.draw (λ d. self.old.draw ≡ Some d) }
        ensures unfixed { self.new.snapshots ≡ Snapshots.Unfixed }
    {
        self.snapshots.clear();
        let Some(draw) = &self.draw else {
            return;
        };
        if draw.is_done() {
            self.floor = self.floor.max(draw.place + 1);
            self.draw = None;
        }
    }

    /// Sees how many of the first places a server has.
    pub(crate) fn look(&mut self, logs: &Logs, server: u8) -> Option<Reply>
        ensures { Looks ⟦<Snapshot as Shelf>⟧.held server logs.now self.old self.new result }
    {
        if server > 2 || self.snapshots.is_pending() {
            return None;
        }
        let prefix = logs.prefix(server);
        self.floor = self.floor.max(prefix);
        self.snapshots.clear();
        Some(Reply::Looked { prefix })
    }

    /// Fixes the next server, where servers and fixes have the rows of the order that the sight has seen. Out of memory, it
    /// changes nothing.
    pub(crate) fn fix(
        &mut self,
        alloc: Global,
        logs: &mut Logs,
        widths: &Widths,
        sight: &Sight,
    ) -> Result<Reply, Memory>
        requires few { length sight.now.order ≤ 65536 }
        requires servers { (k : ℕ) → k < 3 → IsServer k widths.now (log_of logs.old k).capacity sight.now.order (log_of logs.old k) }
        requires first { AreFirst ⟦<Snapshot as Shelf>⟧.held widths.now sight.now.order self.old.snapshots }
        ensures first { AreFirst ⟦<Snapshot as Shelf>⟧.held widths.now sight.now.order self.new.snapshots }
        ensures logs { logs.new ≡ logs.old }
        ensures fixed { IfOk result (Fixed ⟦<Snapshot as Shelf>⟧.held logs.old self.old self.new) }
        ensures stays { OnErr result (self.new ≡ self.old) }
    {
        let server = self.snapshots.next_server();
        let had = logs.prefix(server);
        let floor = self.floor;
        if had < floor {
            self.snapshots.clear();
            return Ok(Reply::Again { server, had, floor });
        }
        let snapshot = logs.fix(alloc, server)?;
        Ok(self.keep(widths, sight, snapshot))
    }

    // Keeps a snapshot of the next server; with the third one the actor agrees on the rows that all three have.
    fn keep(&mut self, widths: &Widths, sight: &Sight, snapshot: Snapshot) -> Reply
        requires few { length sight.now.order ≤ 65536 }
        requires first { AreFirst ⟦<Snapshot as Shelf>⟧.held widths.now sight.now.order self.old.snapshots }
        requires next { let h = ⟦<Snapshot as Shelf>⟧.held snapshot in
            KeepsFirst widths.now (next_server_of self.old.snapshots) sight.now.order h.rows h }
        ensures { let held = ⟦<Snapshot as Shelf>⟧.held in
            Keeps held widths.now sight.now.order snapshot self.old.snapshots self.old self.new result }
    {
        let prefix = snapshot.rows();
        match mem::replace(&mut self.snapshots, Snapshots::Unfixed) {
            Snapshots::Unfixed | Snapshots::Agreed(_) => {
                self.snapshots = Snapshots::First(snapshot);
                Reply::Fixed { prefix }
            }
            Snapshots::First(zero) => {
                self.snapshots = Snapshots::Second(zero, snapshot);
                Reply::Fixed { prefix }
            }
            Snapshots::Second(zero, one) => {
                let agreed = Agreed::of(widths, sight, zero, one, snapshot);
                let rows = agreed.rows();
                self.floor = rows;
                self.snapshots = Snapshots::Agreed(agreed);
                Reply::Agreed { rows }
            }
        }
    }
}
