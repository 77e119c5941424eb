//! The placement of an erasure pool.

ghost use Rattle.std.specs.Prelude.{◌≡◌, ◌+◌, ◌≤◌, ◌<◌, ◌^◌, length, map};
ghost use Rattle.std.specs.List.{list_any};
ghost use Rattle.pgp_crush.specs.Descent.{rank_limit};
ghost use Rattle.pgp_crush.specs.Candidate.{input_of, candidate};
ghost use Rattle.pgp_crush.specs.Cells.{is_open, cell_holds, after_try, after_look, cells_row, leaf_held, indep};

use super::candidate::{Candidate, Input, Pick};
use super::descent::Rank;
use super::first_n::TRIES;
use pgp_ids::{MAX_OSDS, Osds, Place};

/// What a position has so far.
#[derive(Clone, Copy)]
pub enum Cell {
    /// Nothing, and it is still tried.
    Open,
    /// Nothing for good, since a device came too early.
    Gone,
    Held(Pick),
}

impl Cell {
    fn is_open(self) -> bool
        ensures { result ≡ is_open self }
    {
        matches!(self, Cell::Open)
    }
}

impl Input<'_> {
    /// The places of `n` positions.
    #[tactic(auto, using(crate::proofs::IndepLemmas::round_steps))]
    pub(crate) fn indep(&self, n: u8) -> Osds
        requires { n ≤ MAX_OSDS }
        ensures { result ≡ indep (input_of self.now.tree.now self.now.weights.now self.now.x self.now.kind) n }
    {
        let mut room = [Cell::Open; MAX_OSDS];
        let cells = &mut room[..usize::from(n)];
        for round in 0..TRIES {
            if !any_open(cells) {
                return leaves_held(cells);
            }
            self.try_row(cells, round, n);
        }
        leaves_held(cells)
    }

    /// Tries the open ones of `n` positions in this round, in order.
    #[tactic(auto, unfolding(crate::specs::Cells::cells_row), using(crate::proofs::IndepLemmas::row_steps))]
    fn try_row(&self, cells: &mut [Cell], round: u8, n: u8)
        requires { length cells.old ≡ n }
        ensures { cells.new ≡ cells_row (input_of self.now.tree.now self.now.weights.now self.now.x self.now.kind) n round cells.old n }
    {
        for position in 0..n {
            let place = usize::from(position);
            if cells[place].is_open() {
                cells[place] = self.try_cell(cells, Rank::Spread(position, round, n), position);
            }
        }
    }

    /// What an open position has after it was tried.
    fn try_cell(&self, cells: &[Cell], rank: Rank, position: u8) -> Cell
        requires { rank_limit rank + position < 2 ^ 32 }
        ensures { result ≡ after_try cells.now (candidate (input_of self.now.tree.now self.now.weights.now self.now.x self.now.kind) rank position) }
    {
        match self.candidate(rank, position) {
            Candidate::Early => Cell::Gone,
            Candidate::Unfit => Cell::Open,
            Candidate::Fit(pick) if holds_item(cells, pick.item) => Cell::Open,
            Candidate::Fit(pick) => Cell::Held(pick),
        }
    }
}

/// Some position is still tried.
fn any_open(cells: &[Cell]) -> bool
    ensures { result ≡ list_any is_open cells.now }
{
    cells.iter().any(|cell| cell.is_open())
}

/// Some position holds this item.
fn holds_item(cells: &[Cell], item: i32) -> bool
    ensures { result ≡ list_any (cell_holds item) cells.now }
{
    cells.iter().any(|cell| matches!(cell, Cell::Held(pick) if pick.item == item))
}

/// The leaves that the positions hold.
fn leaves_held(cells: &[Cell]) -> Osds
    requires { length cells.now ≤ MAX_OSDS }
    ensures { result ≡ map leaf_held cells.now }
{
    let mut osds = Osds::new();
    for cell in cells {
        osds.push(Place::new(match cell {
            Cell::Held(pick) => Some(pick.leaf),
            _ => None,
        }));
    }
    osds
}
