//! Tables of items, read.

ghost use Rattle.std.specs.Prelude.{◌≡◌, ◌↔◌, IsTrue, ◌<◌, ◌≤◌, ◌+◌, ◌*◌, ◌^◌, ℕ, List, [], length, take, drop, slice_index_or};
ghost use Rattle.std.specs.Int.{w32, from_be_bytes};
ghost use Rattle.body_forms.specs.ItemTable.{IsItemTable};

use byteorder::{BigEndian, ByteOrder};

// The number in the four bytes from a place on.
fn number_from(bytes: &[u8], at: usize) -> u32
    requires { at + 4 ≤ length bytes.now }
    ensures { result ≡ from_be_bytes w32 (take 4 (drop at bytes.now)) }
{
    BigEndian::read_u32(&bytes[at..])
}

/// How many items the table has.
pub fn item_count(table: &[u8]) -> u32
    requires { (items : List (List ℕ)) × IsItemTable table.now items }
    ensures { (items : List (List ℕ)) → IsItemTable table.now items → result ≡ length items }
{
    number_from(table, 0)
}

/// Lends the item at this place.
pub fn item_at(table: &[u8], place: u32) -> &[u8]
    requires { (items : List (List ℕ)) × IsItemTable table.now items × (place < length items) }
    ensures { (items : List (List ℕ)) → IsItemTable table.now items
        → result.now ≡ slice_index_or items place [] }
{
    let count = item_count(table) as usize;
    let place = place as usize;
    let start = number_from(table, 4 + 4 * place) as usize;
    let end = number_from(table, 4 + 4 * (place + 1)) as usize;
    let area = 8 + 4 * count;
    &table[area + start..area + end]
}

/// Whether the bytes are a table of items.
pub fn is_item_table(bytes: &[u8]) -> bool
    ensures { IsTrue result ↔ ((items : List (List ℕ)) × IsItemTable bytes.now items) }
{
    if bytes.len() < 8 {
        return false;
    }
    let count = number_from(bytes, 0) as usize;
    if (bytes.len() - 8) / 4 < count {
        return false;
    }
    let area = bytes.len() - 8 - 4 * count;
    if area > 0xffff_ffff {
        return false;
    }
    if number_from(bytes, 4) != 0 {
        return false;
    }
    for i in 0..count {
        let start = number_from(bytes, 4 + 4 * i);
        let end = number_from(bytes, 4 + 4 * (i + 1));
        if start > end {
            return false;
        }
    }
    number_from(bytes, 4 + 4 * count) as usize == area
}
