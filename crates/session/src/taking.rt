//! Commands taken.

ghost use Rattle.std.specs.Prelude.{◌≡◌, ℕ, List, ◌∷◌, length};
ghost use Rattle.command.specs.declared.Command.{Command};
ghost use Rattle.order.specs.Orders.{order_of};
ghost use Rattle.rules.specs.declared.place.Place.{Place};
ghost use Rattle.tape.specs.declared.hull.Panel.{Panel};
ghost use Rattle.tape.specs.declared.joinery.Part.{Part};
ghost use Rattle.session.specs.Halls.{Idle, after_order, answer_at, ask_of, hall_from, panel_ask, part_ask};
ghost use Rattle.session.specs.Seen.{HallFits, Moved, Unchanged, Untouched, hall_of};
ghost use Rattle.session.specs.Talks.{Promised, account_of, talk_of, unlocated};

use crate::beginning::begin;
use crate::session::{Hall, Session};
use command::Command;
use desk::Ask;
use fault::{Fault, located};
use label::Label;
use order::Order;
use refusal::Refusal;
use rules::Place;
use tape::{HullTape, JoineryTape, Panel, Part};

// Two functions and one that both share: each is the one arm that brings its piece.

/// An order as it reaches a book of panels.
fn panel_ask(order: Order) -> Ask<Panel>
    ensures { result ≡ panel_ask order }
{
    match order {
        Order::Hull { day, panel } => Ask::Post { piece: panel, day },
        _ => ask_of(order),
    }
}

/// An order as it reaches a book of parts.
fn part_ask(order: Order) -> Ask<Part>
    ensures { result ≡ part_ask order }
{
    match order {
        Order::Joinery { day, part } => Ask::Post { piece: part, day },
        _ => ask_of(order),
    }
}

/// An order that brings no piece of its kind, as it reaches a book.
fn ask_of<P>(order: Order) -> Ask<P>
    ensures { result ≡ ask_of order }
{
    match order {
        Order::Radius(radius) => Ask::Radius(radius),
        Order::Open => Ask::Open,
        Order::Day(day) => Ask::Turn(day),
        Order::Pick => Ask::Pick,
        Order::Settings(_) | Order::Hull { .. } | Order::Joinery { .. } => Ask::Stray,
    }
}

impl Session {
    fn take(
        &mut self,
        order: Order,
        panels: &mut [Place<Panel>],
        parts: &mut [Place<Part>],
    ) -> Result<Option<Label>, Refusal>
        ensures moved { Moved order result (length panels.old) (length parts.old) (hall_of self.old panels.old parts.old) (hall_of self.new panels.new parts.new) }
        ensures refused { Unchanged result self.old self.new panels.old panels.new parts.old parts.new }
        ensures surplus { Untouched self.old panels.old parts.old panels.new parts.new }
    {
        match &mut self.hall {
            Hall::Idle => begin(&mut self.hall, order),
            Hall::OfPanels(desk) => desk.take(panel_ask(order), panels, &HullTape),
            Hall::OfParts(desk) => desk.take(part_ask(order), parts, &JoineryTape),
        }
    }

    // The places of both kinds are lent to each call: a struct of both would be made anew for each.
    /// Takes the command that begins at `offset`: makes its piece, which may be refused, and then does what it says.
    /// It answers a label to a pick, and nothing to what else it performs.
    ///
    /// Over every list of commands from the start: each pick's label covers what the posts taken so far leave in the
    /// window, no choice beats it by more than its factor, and every choice reaches farther than its floor; a pick is
    /// refused because no radius passes only if every choice reaches farther than the last radius, and because no piece
    /// counts only if none does; and with all its places no command is refused for want of them.
    pub fn handle(
        &mut self,
        command: Command,
        offset: usize,
        panels: &mut [Place<Panel>],
        parts: &mut [Place<Part>],
    ) -> Result<Option<Label>, Fault>
        ensures answer { result ≡ answer_at (hall_of self.old panels.old parts.old) offset command }
        ensures left { HallFits (after_order (length panels.old) (length parts.old) (hall_of self.old panels.old parts.old) (order_of offset command)) → hall_of self.new panels.new parts.new ≡ after_order (length panels.old) (length parts.old) (hall_of self.old panels.old parts.old) (order_of offset command) }
        ensures refused { Unchanged result self.old self.new panels.old panels.new parts.old parts.new }
        ensures surplus { Untouched self.old panels.old parts.old panels.new parts.new }
        ensures run { (cs : List (ℕ × Command)) → hall_of self.old panels.old parts.old ≡ hall_from (length panels.old) (length parts.old) cs → hall_of self.new panels.new parts.new ≡ hall_from (length panels.old) (length parts.old) ((offset, command) ∷ cs) }
        ensures holds { (cs : List (ℕ × Command)) → hall_of self.old panels.old parts.old ≡ hall_from (length panels.old) (length parts.old) cs → Promised (account_of (length panels.old) (length parts.old) (talk_of (length panels.old) (length parts.old) cs)) command (unlocated result) }
    {
        let order = Order::of(command, offset)?;
        located(self.take(order, panels, parts), offset)
    }
}
