ghost use Rattle.std.specs.Prelude.{◌≡◌, ◌+◌, ◌<◌, ◌^◌, List, ℕ, None, length, slice_get, MatchOption, option_and_then};
ghost use Rattle.tn_module.specs.Names.{code_label};
ghost use Rattle.tn_list.specs.Symbols.{label_placed, is_in_code, IsSymbolOf, HasNoSymbol, nearer, nearest, symbol_at};

use tn_link::{Linked, Placed};
use tn_module::{Item, Module};
use tn_symbols::Chosen;
use tn_text::Name;

/// The label of code that an address belongs to: the last one, in the order of items, whose address
/// is at most this, and how many bytes it lies below. `None` exactly where the address is outside of
/// the linked code, or no label lies at it or below. It looks at each item once.
#[tactic(auto, using(crate::proofs::SymbolLaws::symbol_told))]
pub fn symbol_of(linked: &Linked, chosen: &Chosen, address: u32) -> Option<(Name, u32)>
    requires { linked.now.code_base + length linked.now.code.items < 2 ^ 64 }
    ensures value { result ≡ symbol_at chosen.now.modules.items linked.now address }
    ensures symbol { MatchOption result (HasNoSymbol chosen.now.modules.items linked.now address)
        (λ found. IsSymbolOf chosen.now.modules.items linked.now address found) }
{
    if is_in_code(linked, address) {
        nearest(&linked.placed, &chosen.modules, address)
    } else {
        None
    }
}

/// Whether the address lies in the code.
fn is_in_code(linked: &Linked, address: u32) -> bool
    requires { linked.now.code_base + length linked.now.code.items < 2 ^ 64 }
    ensures { result ≡ is_in_code linked.now address }
{
    let base = u64::from(linked.code_base);
    let address = u64::from(address);
    base <= address && address < base + linked.code.len() as u64
}

/// The last label at the address or below.
#[tactic(auto, unfolding(crate::specs::Symbols::nearest))]
fn nearest(placed: &[Placed], modules: &[Module], address: u32) -> Option<(Name, u32)>
    ensures { result ≡ nearest modules.now address None placed.now }
{
    let mut found = None;
    let mut rest = placed;
    while let [first, behind @ ..] = rest {
        found = nearer(modules, address, found, first);
        rest = behind;
    }
    found
}

/// The label that is placed there, where it is one at the address or below, else what was found.
#[tactic(auto, unfolding(crate::specs::Symbols::nearer))]
fn nearer(
    modules: &[Module],
    address: u32,
    found: Option<(Name, u32)>,
    placed: &Placed,
) -> Option<(Name, u32)>
    ensures { result ≡ nearer modules.now address found placed.now }
{
    if placed.address <= address {
        match label_placed(modules, placed) {
            Some(name) => Some((name, address - placed.address)),
            None => found,
        }
    } else {
        found
    }
}

/// The name of the label that is placed there, if it is one.
fn label_placed(modules: &[Module], placed: &Placed) -> Option<Name>
    ensures { result ≡ label_placed modules.now placed.now }
{
    match modules.get(placed.module as usize) {
        Some(module) => label_in(&module.raw().items, placed.item as usize),
        None => None,
    }
}

/// The name of the label that stands at a place of the items, if it is one.
fn label_in(items: &[Item], place: usize) -> Option<Name>
    ensures { result ≡ option_and_then code_label (slice_get items.now place) }
{
    match items.get(place) {
        Some(item) => code_label(item),
        None => None,
    }
}

fn code_label(item: &Item) -> Option<Name>
    ensures { result ≡ code_label item.now }
{
    match item {
        Item::Label(name) => Some(*name),
        Item::Direct(_, _) | Item::Plain(_) | Item::Byte(_) => None,
    }
}
