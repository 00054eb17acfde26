ghost use Rattle.std.specs.Prelude.{◌≡◌, ◌≤◌, map, length, IfOk, IfErr, option_map};
ghost use Rattle.cairo_model.specs.Machine.FieldMemories.{field_cell, AddressesRise, addresses, cell_at};
ghost use Rattle.cairo_model.specs.Working.Keys.{IsKeyAt, IsGapFor, AreBelow, AreAbove};

use goldi_field::Felt;
use std::marker::Model;

/// A memory over the field: addresses and values, seen as the list of its cells, whose addresses rise strictly.
#[derive(Debug, Drop)]
pub struct Cells {
    list: Vec<(Felt, Felt)>,
}

impl Model for Cells {
    ghost use Rattle.std.specs.Prelude.{List, map};
    ghost use Rattle.cairo_model.specs.Machine.FieldMemories.{FieldCell, field_cell, AddressesRise};

    ghost Value = { List FieldCell };

    ghost view = { λ c. map field_cell c.list.items };

    ghost invariant = { λ c. AddressesRise (map field_cell c.list.items) };
}

impl Cells {
    /// Takes no memory.
    pub fn of(list: Vec<(Felt, Felt)>) -> Cells
        requires { AddressesRise (map field_cell list.items) }
        ensures { result ≡ map field_cell list.items }
    {
        Cells { list }
    }

    /// The cells in the order of their addresses. Takes no memory.
    pub fn as_slice(&self) -> &[(Felt, Felt)]
        ensures cells { map field_cell result.now ≡ self.now }
        ensures rise { AddressesRise self.now }
    {
        self.list.as_slice()
    }

    /// The value at an address. Takes no memory, and one look where no address is left out between the first and the last;
    /// else a number of looks that is logarithmic in that of the addresses left out.
    pub fn get(&self, address: Felt) -> Option<Felt>
        ensures { option_map (λ f. f.number) result ≡ cell_at self.now address.number }
    {
        match self.search(address) {
            Ok(at) => Some(self.list[at].1),
            Err(_) => None,
        }
    }

    // Where the address is, or where it would go.
    fn search(&self, address: Felt) -> Result<usize, usize>
        ensures found { IfOk result (IsKeyAt (addresses self.now) address.number) }
        ensures absent { IfErr result (IsGapFor (addresses self.now) address.number) }
    {
        let from = self.first_place(address);
        let to = self.places_to(address);
        match halved(&self.list[from..to], address) {
            Ok(at) => Ok(from + at),
            Err(at) => Err(from + at),
        }
    }

    // The first index where the address may be: where it is if none is left out from there to the last one.
    fn first_place(&self, address: Felt) -> usize
        ensures below { AreBelow (addresses self.now) address.number result }
        ensures inside { result ≤ length self.now }
    {
        let Some((last, _)) = self.list.last() else {
            return 0;
        };
        match last.value().checked_sub(address.value()) {
            Some(behind) => (self.list.len() - 1).saturating_sub(behind as usize),
            None => self.list.len(),
        }
    }

    // The index above which the address can't be: where it is if none is left out from the first one on.
    fn places_to(&self, address: Felt) -> usize
        ensures above { AreAbove (addresses self.now) address.number result }
        ensures inside { result ≤ length self.now }
    {
        let Some((first, _)) = self.list.first() else {
            return 0;
        };
        match address.value().checked_sub(first.value()) {
            Some(before) => (before as usize + 1).min(self.list.len()),
            None => 0,
        }
    }
}

// Where the address is in a list of cells, or where it would go.
fn halved(cells: &[(Felt, Felt)], address: Felt) -> Result<usize, usize>
    requires { AddressesRise (map field_cell cells.now) }
    ensures found { IfOk result (IsKeyAt (addresses (map field_cell cells.now)) address.number) }
    ensures absent { IfErr result (IsGapFor (addresses (map field_cell cells.now)) address.number) }
{
    cells.binary_search_by_key(&address, |&(key, _)| key)
}
