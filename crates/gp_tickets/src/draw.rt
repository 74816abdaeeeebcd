ghost use Rattle.std.specs.Prelude.{◌≡◌, ◌+◌, ◌≤◌, ◌<◌, None, All, IfOk, OnOk, MatchOption, length, []};
ghost use Rattle.gp_tickets.specs.Hand.{drew, joined, told_none, unused, WasTold};
ghost use Rattle.gp_tickets.specs.Tickets.{hand_of, IsDrawerOf, IsUnused};

use crate::hand::Hand;
use crate::rule::{Both, Draw, HandOver, Look};
use crate::tickets::{Drawer, Tickets};
use atomic_table::{Seat, Table};
use std::alloc::{AllocError, Global};

impl Tickets {
    /// So many numbers, and so many drawers. Takes memory for a word and for the drawers.
    pub fn new(
        alloc: Global,
        count: u64,
        drawers: u32,
    ) -> Result<(Tickets, Vec<Drawer>), AllocError>
        requires count { count ≤ 4294967296 }
        requires drawers { (1 ≤ drawers) × (drawers ≤ 16) }
        ensures count { IfOk result (λ made. made.0.count ≡ count) }
        ensures crew { IfOk result (λ made. made.0.crew ≡ drawers) }
        ensures len { IfOk result (λ made. length made.1.items ≡ drawers) }
        ensures unused { IfOk result (λ made. All (IsUnused made.0) made.1.items) }
    {
        let crew = u64::from(drawers);
        let (table, seat) = Table::of_words(alloc, &[0], &(count, crew))?;
        let tickets = Tickets { table, count, crew };
        let drawers = tickets.cut(alloc, seat)?;
        Ok((tickets, drawers))
    }

    // Cuts the seat of the whole crew into one for each drawer.
    fn cut(&self, alloc: Global, mut seat: Seat<u8, Hand>) -> Result<Vec<Drawer>, AllocError>
        requires crew { 1 ≤ self.now.crew }
        requires seat { (seat.table_id ≡ self.now.table.shared.table_id) × (seat.me ≡ (unused self.now.count self.now.crew self.now.crew, [])) }
        ensures len { IfOk result (λ all. length all.items ≡ self.now.crew) }
        ensures unused { IfOk result (λ all. All (IsUnused self.now) all.items) }
    {
        let mut all = Vec::new(alloc);
        self.split_off(&mut seat, &mut all)?;
        all.push(Drawer { seat, told: false })?;
        Ok(all)
    }

    // Splits the seat of the whole crew off for each drawer but one.
    fn split_off(&self, seat: &mut Seat<u8, Hand>, all: &mut Vec<Drawer>) -> Result<(), AllocError>
        requires crew { 1 ≤ self.now.crew }
        requires seat { (seat.old.table_id ≡ self.now.table.shared.table_id) × (seat.old.me ≡ (unused self.now.count self.now.crew self.now.crew, [])) }
        requires none { all.old.items ≡ [] }
        ensures same { OnOk result (seat.new.table_id ≡ self.now.table.shared.table_id) }
        ensures seat { OnOk result (seat.new.me ≡ (unused self.now.count self.now.crew 1, [])) }
        ensures len { OnOk result (length all.new.items + 1 ≡ self.now.crew) }
        ensures unused { OnOk result (All (IsUnused self.now) all.new.items) }
    {
        'parts: for _ in 0..self.crew - 1 {
            let one = self.table.shared.split_seat::<HandOver>(seat);
            all.push(Drawer {
                seat: one,
                told: false,
            })?;
        }
        Ok(())
    }

    /// The next number, by one atomic step; None where none is left, or this drawer was told so before. Takes no memory
    /// and waits for nobody.
    pub fn draw(&self, drawer: &mut Drawer) -> Option<u64>
        requires { IsDrawerOf self.now drawer.old }
        ensures drawer { IsDrawerOf self.now drawer.new }
        ensures again { WasTold (hand_of drawer.old) → (result ≡ None) × (hand_of drawer.new ≡ hand_of drawer.old) }
        ensures first { (hand_of drawer.old).nones ≡ 0 → MatchOption result (hand_of drawer.new ≡ told_none (hand_of drawer.old)) (λ number. (number < (hand_of drawer.old).count) × (hand_of drawer.new ≡ drew (hand_of drawer.old) number)) }
    {
        if drawer.told {
            return None;
        }
        let found = self.table.shared.fetch_add::<Draw>(&mut drawer.seat, 0, 1);
        if found < self.count {
            return Some(found);
        }
        drawer.told = true;
        None
    }

    /// One drawer stands for both, with the numbers of both. Takes no memory and waits for nobody.
    pub fn rejoin(&self, into: &mut Drawer, other: Drawer)
        requires into { IsDrawerOf self.now into.old × WasTold (hand_of into.old) }
        requires other { IsDrawerOf self.now other × WasTold (hand_of other) }
        ensures drawer { IsDrawerOf self.now into.new }
        ensures both { hand_of into.new ≡ joined (hand_of into.old) (hand_of other) }
    {
        let Drawer { seat, told: _ } = other;
        self.table.shared.join_seat::<Both>(&mut into.seat, seat);
        // by this look the drawer learns that no number stands twice in what both drew
        self.table.shared.load::<Look>(&mut into.seat, 0);
    }
}
