//! The rows that have a term, as they are gathered.

ghost use Rattle.std.specs.Prelude.{◌≡◌, ◌↔◌, ◌++◌, ◌∷◌, [], IsTrue, OnOk};
ghost use Rattle.postings_plain.specs.Gathering.{EndsInRow, GainsPlace};

use crate::positions::Positions;
use nrt_base::NoMemory;
use std::alloc::Global;
use std::marker::Model;

/// A row that has a term, and the positions of the term in it.
#[derive(Debug, Drop)]
pub struct RowHit {
    row: u32,
    places: Vec<u32>,
}

impl Model for RowHit {
    ghost use Rattle.std.specs.Prelude.{ℕ, List};

    ghost Value = { ℕ × List ℕ };

    ghost view = { λ hit. (hit.row, hit.places.items) };
}

impl RowHit {
    fn new(alloc: Global, row: u32) -> RowHit
        ensures { result ≡ (row, []) }
    {
        RowHit {
            row,
            places: Vec::new(alloc),
        }
    }

    fn push(&mut self, place: u32) -> Result<(), NoMemory>
        ensures { OnOk result (self.new ≡ (self.old.0, self.old.1 ++ place ∷ [])) }
    {
        self.places.push(place)?;
        Ok(())
    }

    pub fn row(&self) -> u32
        ensures { result ≡ self.now.0 }
    {
        self.row
    }

    pub fn places(&self) -> &[u32]
        ensures { result.now ≡ self.now.1 }
    {
        self.places.as_slice()
    }
}

/// The rows that have a term.
#[derive(Debug, Drop)]
pub struct TermHits {
    hits: Vec<RowHit>,
}

impl Model for TermHits {
    ghost use Rattle.std.specs.Prelude.{ℕ, List};

    ghost Value = { List (ℕ × List ℕ) };

    ghost view = { λ rows. rows.hits.items };
}

impl TermHits {
    pub fn new(alloc: Global) -> TermHits
        ensures { result ≡ [] }
    {
        TermHits {
            hits: Vec::new(alloc),
        }
    }

    pub fn as_slice(&self) -> &[RowHit]
        ensures { result.now ≡ self.now }
    {
        self.hits.as_slice()
    }

    /// Adds a row whose key the term is.
    pub fn push_row(&mut self, alloc: Global, row: u32) -> Result<(), NoMemory>
        ensures { OnOk result (self.new ≡ self.old ++ (row, []) ∷ []) }
    {
        self.hits.push(RowHit::new(alloc, row))?;
        Ok(())
    }

    /// Adds a row, and the positions of the term in it.
    pub fn push_hit(
        &mut self,
        alloc: Global,
        row: u32,
        positions: Positions<'_>,
    ) -> Result<(), NoMemory>
        ensures { OnOk result (self.new ≡ self.old ++ (row, positions.entry) ∷ []) }
    {
        let mut hit = RowHit::new(alloc, row);
        for position in positions {
            hit.push(position)?;
        }
        self.hits.push(hit)?;
        Ok(())
    }

    /// Puts the rows of others at the end.
    pub fn append(&mut self, others: TermHits) -> Result<(), NoMemory>
        ensures { OnOk result (self.new ≡ self.old ++ others) }
    {
        let mut others = others;
        self.hits.append(&mut others.hits)?;
        Ok(())
    }

    /// Adds a place of the term in a row. Rows before are below it, or are this row.
    pub fn push_place(&mut self, alloc: Global, row: u32, place: u32) -> Result<(), NoMemory>
        ensures { OnOk result (GainsPlace self.old row place self.new) }
    {
        if self.ends_in_row(row) {
            let last = self.hits.len() - 1;
            let hit = &mut self.hits[last];
            hit.push(place)?;
        } else {
            let mut hit = RowHit::new(alloc, row);
            hit.push(place)?;
            self.hits.push(hit)?;
        }
        Ok(())
    }

    fn ends_in_row(&self, row: u32) -> bool
        ensures { IsTrue result ↔ EndsInRow self.now row }
    {
        match self.hits.last() {
            Some(hit) => hit.row() == row,
            None => false,
        }
    }
}
