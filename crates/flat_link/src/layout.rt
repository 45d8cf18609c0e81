//! Where the sections of objects stand.

ghost use Rattle.std.specs.Prelude.{◌≡◌, ◌≤◌, ℕ, [], ◌∷◌, map, length, option_map, All, OnOk, IfOk, IfErr, IsTrue};
ghost use Rattle.std.specs.BTreeMap.{get};
ghost use Rattle.std.specs.List.{list_all};
ghost use Rattle.std.specs.Option.{option_or};
ghost use Rattle.elf_model.specs.Objects.{is_object, is_within, is_code, is_data};
ghost use Rattle.code_ranges.specs.Spans.{place_cmp};
ghost use Rattle.thumb_table.specs.Layouts.{IsPlacement, all_chosen, part_of};
ghost use Rattle.flat_link.specs.Lots.{placed_of, is_sound};
ghost use Rattle.flat_link.specs.Placing.{can_fit as lots_fit};
ghost use Rattle.flat_link.specs.Layout.{IsLayout, IsFitDenial};

use crate::lots::{Lot, chosen, end_of, placed};
use crate::sorts::{Sort, round_up};
use elf_model::{Deny, Limit, Object, Refusal, Spot};
use std::alloc::{AllocError, Global};
use std::collections::BTreeMap;
use thumb_table::Placement;

/// The sections of objects in their places, and each by its object and its number there.
#[derive(Drop)]
pub(crate) struct Layout<'a> {
    pub(crate) objects: &'a [Object],
    pub(crate) at: Placement,
    pub(crate) code: Vec<Lot<'a>>,
    pub(crate) data: Vec<Lot<'a>>,
    pub(crate) table: BTreeMap<(u32, u32), Lot<'a>>,
}

/// Adds a section by its object and number, if it is not there yet.
fn note_lot<'a>(table: &mut BTreeMap<(u32, u32), Lot<'a>>, l: Lot<'a>) -> Result<(), AllocError>
    ensures { OnOk result ((i j : ℕ) → option_map placed_of (get place_cmp table.new (i, j)) ≡ option_or (option_map placed_of (get place_cmp table.old (i, j))) (part_of (placed_of l.entry ∷ []) i j)) }
{
    let key = (l.object, l.index);
    if table.get(&key).is_none() {
        table.insert(key, l)?;
    }
    Ok(())
}

fn note_lots<'a>(
    table: &mut BTreeMap<(u32, u32), Lot<'a>>,
    lots: &[Lot<'a>],
) -> Result<(), AllocError>
    ensures { OnOk result ((i j : ℕ) → option_map placed_of (get place_cmp table.new (i, j)) ≡ option_or (option_map placed_of (get place_cmp table.old (i, j))) (part_of (map placed_of lots.now) i j)) }
{
    for l in lots {
        note_lot(table, *l)?;
    }
    Ok(())
}

/// Whether code, data and stack fit their places.
fn can_fit(code_lots: &[Lot], data_lots: &[Lot], at: &Placement) -> bool
    requires code { IsTrue (list_all is_sound code_lots.now) }
    requires sound { IsTrue (list_all is_sound data_lots.now) }
    requires few_code { length code_lots.now ≤ 16384 }
    requires few { length data_lots.now ≤ 16384 }
    ensures { result ≡ lots_fit (map placed_of code_lots.now) (map placed_of data_lots.now) at.now }
{
    let base = at.base as u64;
    let memory = base + at.room as u64;
    let code_end = end_of(Sort::Code, code_lots, base);
    let data_end = end_of(Sort::Data, data_lots, memory);
    code_end <= memory
        && round_up(data_end - memory, 8) + at.stack as u64 <= 16_777_216
        && data_end <= 0x7FFF_F000
}

/// The sections in their places, which they fit.
fn laid<'a>(
    alloc: Global,
    objects: &'a [Object],
    at: &Placement,
    code_lots: &[Lot<'a>],
    data_lots: &[Lot<'a>],
) -> Result<Layout<'a>, AllocError>
    requires placement { IsPlacement at.now }
    requires few { length objects.now ≤ 16 }
    requires within { All (λ o. IsTrue (is_within o Limit.ANY)) objects.now }
    requires objects { IsTrue (list_all is_object objects.now) }
    requires code { map placed_of code_lots.now ≡ all_chosen is_code 0 objects.now }
    requires sound { map placed_of data_lots.now ≡ all_chosen is_data 0 objects.now }
    requires fits { IsTrue (lots_fit (map placed_of code_lots.now) (map placed_of data_lots.now) at.now) }
    ensures laid { IfOk result (λ l. IsLayout l) }
    ensures objects { IfOk result (λ l. l.objects.now ≡ objects.now) }
    ensures placement { IfOk result (λ l. l.at ≡ at.now) }
{
    let base = at.base as u64;
    let code = placed(alloc, Sort::Code, code_lots, base)?;
    let data = placed(alloc, Sort::Data, data_lots, base + at.room as u64)?;
    let mut table = BTreeMap::new(alloc);
    note_lots(&mut table, &code)?;
    note_lots(&mut table, &data)?;
    Ok(Layout {
        objects,
        at: *at,
        code,
        data,
        table,
    })
}

fn does_not_fit() -> Deny
    ensures { result ≡ Deny.Refused (record { refusal = Refusal.DoesNotFit; file = 0; section = 0; offset = 0 }) }
{
    Deny::Refused(Spot {
        refusal: Refusal::DoesNotFit,
        file: 0,
        section: 0,
        offset: 0,
    })
}

/// The sections of objects in their places, or that they do not fit.
pub(crate) fn lay<'a>(
    alloc: Global,
    objects: &'a [Object],
    at: &Placement,
) -> Result<Layout<'a>, Deny>
    requires few { length objects.now ≤ 16 }
    requires within { All (λ o. IsTrue (is_within o Limit.ANY)) objects.now }
    requires sound { IsTrue (list_all is_object objects.now) }
    requires placement { IsPlacement at.now }
    ensures laid { IfOk result (λ l. IsLayout l) }
    ensures objects { IfOk result (λ l. l.objects.now ≡ objects.now) }
    ensures placement { IfOk result (λ l. l.at ≡ at.now) }
    ensures refused { IfErr result (λ why. IsFitDenial objects.now at.now why) }
{
    let code = chosen(alloc, Sort::Code, objects)?;
    let data = chosen(alloc, Sort::Data, objects)?;
    if can_fit(&code, &data, at) {
        Ok(laid(alloc, objects, at, &code, &data)?)
    } else {
        Err(does_not_fit())
    }
}
