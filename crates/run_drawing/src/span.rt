//! Pages, and where things stand on them.

ghost use Rattle.std.specs.Prelude.{◌≡◌, ◌++◌, OnOk};
ghost use Rattle.run_drawing.specs.Drawing.{x_of, width_of, floor_of, rise_of, y_of, entries_text, span_from};

use nrt_base::{NoMemory, NodeNo, Version};
use std::alloc::Global;

/// A page: how many lanes it has, how many entries stand before it, and between which versions its bands are.
#[derive(Clone, Copy, Debug, PartialEq, Eq)]
pub struct Page {
    pub lanes: u8,
    pub start: usize,
    pub low: u64,
    pub top: u64,
}

impl Page {
    /// Where the band of a node ends, from the top of the page.
    pub fn floor(self, node: NodeNo) -> u128
        ensures { result ≡ floor_of self node.0 }
    {
        24 + 12 * u128::from(self.lanes) + 60 * u128::from(node.0)
    }

    /// How high a version stands in a band.
    fn rise(self, v: Version) -> u128
        ensures { result ≡ rise_of self v.0 }
    {
        let height = u128::from(self.top.saturating_sub(self.low).max(1));
        28 * u128::from(v.0.saturating_sub(self.low)) / height
    }

    /// Where a version stands in the band of a node, from the top of the page.
    pub fn version_line(self, node: NodeNo, v: Version) -> u128
        ensures { result ≡ y_of self node.0 v.0 }
    {
        self.floor(node)
            .saturating_sub(13)
            .saturating_sub(self.rise(v))
    }

    /// From a place, or from the start of the page, to a later place.
    pub fn span(self, since: usize, right: usize) -> Span
        ensures { result ≡ span_from self since right }
    {
        let left = self.start.max(since);
        Span {
            page: self,
            left,
            right,
        }
    }
}

/// Some entries of a page, from a place to the one behind the last.
#[derive(Clone, Copy, Debug, PartialEq, Eq)]
pub struct Span {
    pub page: Page,
    pub left: usize,
    pub right: usize,
}

impl Span {
    /// Where it begins, from the left.
    pub fn x(self) -> u128
        ensures { result ≡ x_of self }
    {
        64 + 11 * (self.left.saturating_sub(self.page.start) as u128)
    }

    /// How wide it is.
    pub fn width(self) -> u128
        ensures { result ≡ width_of self }
    {
        11 * (self.right.saturating_sub(self.left) as u128)
    }

    /// Puts which entries it has at the end.
    #[tactic(auto, unfolding(crate::specs::Drawing::entries_text))]
    pub fn push_entries(self, out: &mut Vec<u8>, alloc: Global) -> Result<(), NoMemory>
        ensures { OnOk result (out.new.items ≡ out.old.items ++ entries_text self) }
    {
        let first = self.left as u128 + 1;
        let last = self.right;
        out.extend_from_slice(format!(in alloc; "entries {first} to {last}")?.as_bytes())
    }
}
