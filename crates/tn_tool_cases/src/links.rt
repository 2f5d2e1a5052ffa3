ghost use Rattle.std.specs.Prelude.{◌≡◌, ◌%◌, ◌<◌, length, All, IsTrue, IfOk};
ghost use Rattle.tn_module.specs.Modules.{IsShort};
ghost use Rattle.tn_symbols.specs.Sources.{offer, IsOffer, IsShortLibrary};
ghost use Rattle.tn_link.specs.Linking.{AreLinkable, IsBase, IsLinked};

use crate::faults::name_of;
use crate::module_texts::is_short;
use std::alloc::Global;
use tn_link::{LinkFault, Linked, Placed, link};
use tn_modtext::read_module;
use tn_module::{Kind, Library, Module};
use tn_symbols::{ChooseFault, Chosen, Source, choose};
use tn_tables::{Case, Line, Report, Stop, number, said, spelled};
use tn_word::MOST_NEG;

/// Where code and cells begin.
#[derive(Clone, Copy)]
struct Bases {
    code: u32,
    cells: u32,
}

/// Modules and libraries, the places of those that are named and used, and where they are linked.
#[derive(Drop)]
struct Stock {
    pool: Vec<Module>,
    shelf: Vec<Library>,
    named: Vec<u32>,
    used: Vec<u32>,
    bases: Bases,
}

/// Runs a case of the table of links.
pub fn run_case(alloc: Global, case: &Case<'_>, report: &mut Report) -> Result<(), Stop> {
    let stock = stock_of(alloc, case)?;
    run_lines(alloc, case, &stock, report)
}

fn run_lines(
    alloc: Global,
    case: &Case<'_>,
    stock: &Stock,
    report: &mut Report,
) -> Result<(), Stop> {
    for line in case.lines.iter() {
        match line.words.as_slice() {
            ["module"] | ["library"] | ["named", ..] | ["used", ..] | ["from", ..] => {}
            words => {
                let came = answer(alloc, stock, words);
                report.answer(alloc, case.name, line, came)?;
            }
        }
    }
    Ok(())
}

/// The modules and libraries of a case.
fn stock_of(alloc: Global, case: &Case<'_>) -> Result<Stock, Stop> {
    let mut stock = Stock {
        pool: Vec::new(alloc),
        shelf: Vec::new(alloc),
        named: Vec::new(alloc),
        used: Vec::new(alloc),
        bases: Bases {
            code: 0x8000_0400,
            cells: 0x8000_0800,
        },
    };
    for line in case.lines.iter() {
        add_line(alloc, &mut stock, line)?;
    }
    Ok(stock)
}

fn add_line(alloc: Global, stock: &mut Stock, line: &Line<'_>) -> Result<(), Stop> {
    match line.words.as_slice() {
        ["module"] => add_module_of(alloc, stock, line),
        ["library"] => add_library(alloc, stock),
        ["named", places @ ..] => put_places(&mut stock.named, places),
        ["used", places @ ..] => put_places(&mut stock.used, places),
        ["from", code, cells] => put_bases(&mut stock.bases, code, cells),
        ["from", ..] => Err(Stop::BadCase),
        _ => Ok(()),
    }
}

/// Adds the module of a text.
fn add_module_of(alloc: Global, stock: &mut Stock, line: &Line<'_>) -> Result<(), Stop> {
    match module_of(alloc, line) {
        Ok(module) => add_module(stock, module),
        Err(stop) => Err(stop),
    }
}

fn module_of(alloc: Global, line: &Line<'_>) -> Result<Module, Stop> {
    if line.bytes.len() >= 1 << 30 {
        return Err(Stop::BadCase);
    }
    read_module(alloc, line.bytes.as_slice())
        .ok()
        .ok_or(Stop::BadCase)
}

/// Puts a module into the last library, or into the pool, where it is named.
fn add_module(stock: &mut Stock, module: Module) -> Result<(), Stop> {
    match stock.shelf.last_mut() {
        Some(library) => Ok(library.modules.push(module)?),
        None => {
            stock.named.push(place_behind(stock.pool.len())?)?;
            Ok(stock.pool.push(module)?)
        }
    }
}

/// Begins a library, which is used.
fn add_library(alloc: Global, stock: &mut Stock) -> Result<(), Stop> {
    stock.used.push(place_behind(stock.shelf.len())?)?;
    Ok(
        stock.shelf.push(Library {
            modules: Vec::new(alloc),
        })?,
    )
}

/// The place behind so many.
fn place_behind(count: usize) -> Result<u32, Stop> {
    if count < 1 << 30 {
        Ok(count as u32)
    } else {
        Err(Stop::BadCase)
    }
}

fn put_places(list: &mut Vec<u32>, places: &[&str]) -> Result<(), Stop> {
    list.clear();
    for place in places {
        list.push(number(place)?)?;
    }
    Ok(())
}

fn put_bases(bases: &mut Bases, code: &str, cells: &str) -> Result<(), Stop> {
    bases.code = number(code)?;
    bases.cells = number(cells)?;
    Ok(())
}

fn answer(alloc: Global, stock: &Stock, words: &[&str]) -> Result<Vec<u8>, Stop> {
    match chosen(alloc, &stock.pool, &stock.named, &stock.shelf, &stock.used) {
        Ok(Ok(chosen)) => answer_of(alloc, &chosen, stock.bases, words),
        Ok(Err(fault)) => choice_fault(alloc, fault),
        Err(stop) => Err(stop),
    }
}

/// The chosen modules, or why none were chosen.
fn chosen(
    alloc: Global,
    pool: &[Module],
    named: &[u32],
    shelf: &[Library],
    used: &[u32],
) -> Result<Result<Chosen, ChooseFault>, Stop>
    ensures { IfOk result (λ choice. IfOk choice (λ chosen. AreLinkable chosen.modules.items)) }
{
    if !is_offer(pool, named, shelf, used) {
        return Err(Stop::BadCase);
    }
    match choose(alloc, pool, named, shelf, used) {
        Ok(chosen) => Ok(Ok(chosen)),
        Err(fault) => Ok(Err(fault)),
    }
}

/// Whether modules can be chosen from these: each place is one of the list's, and all lists are short.
fn is_offer(pool: &[Module], named: &[u32], shelf: &[Library], used: &[u32]) -> bool
    ensures { IsTrue result → IsOffer (offer pool.now named.now shelf.now used.now) }
{
    named.len() < 10_000
        && used.len() < 10_000
        && are_within(named, pool.len())
        && are_within(used, shelf.len())
        && are_short(pool)
        && are_short_libraries(shelf)
}

fn are_within(places: &[u32], count: usize) -> bool
    ensures { IsTrue result → All (λ place. place < count) places.now }
{
    for place in places {
        if *place as usize >= count {
            return false;
        }
    }
    true
}

fn are_short(modules: &[Module]) -> bool
    ensures { IsTrue result → All IsShort modules.now }
{
    for module in modules {
        if !is_short(module) {
            return false;
        }
    }
    true
}

fn are_short_libraries(shelf: &[Library]) -> bool
    ensures short { IsTrue result → All IsShortLibrary shelf.now }
    ensures few { IsTrue result → All (λ l. length l.modules.items < 10000) shelf.now }
{
    for library in shelf {
        if !is_short_library(library) {
            return false;
        }
    }
    true
}

fn is_short_library(library: &Library) -> bool
    ensures short { IsTrue result → IsShortLibrary library.now }
    ensures few { IsTrue result → length library.now.modules.items < 10000 }
{
    library.modules.len() < 10_000 && are_short(&library.modules)
}

/// What is asked of chosen modules.
fn answer_of(alloc: Global, chosen: &Chosen, bases: Bases, words: &[&str]) -> Result<Vec<u8>, Stop>
    requires { AreLinkable chosen.now.modules.items }
{
    match words {
        ["choose"] => sources(alloc, &chosen.sources),
        ["find", name] => found(alloc, chosen, name),
        words if are_bases(bases) => link_answer(alloc, chosen, bases, words),
        _ => Err(Stop::BadCase),
    }
}

/// Whether code and cells may begin there.
fn are_bases(bases: Bases) -> bool
    ensures code { IsTrue result → IsBase bases.code }
    ensures cells { IsTrue result → IsBase bases.cells }
    ensures aligned { IsTrue result → bases.cells % 4 ≡ 0 }
{
    is_base(bases.code) && is_base(bases.cells) && bases.cells % 4 == 0
}

fn is_base(address: u32) -> bool
    ensures { IsTrue result → IsBase address }
{
    address >= MOST_NEG && address - MOST_NEG < 1 << 20
}

/// What is asked of linked modules.
fn link_answer(
    alloc: Global,
    chosen: &Chosen,
    bases: Bases,
    words: &[&str],
) -> Result<Vec<u8>, Stop>
    requires linkable { AreLinkable chosen.now.modules.items }
    requires code_base { IsBase bases.code }
    requires cell_base { IsBase bases.cells }
    requires aligned { bases.cells % 4 ≡ 0 }
{
    match link(alloc, chosen, bases.code, bases.cells) {
        Ok(linked) => answer_linked(alloc, chosen, &linked, words),
        Err(LinkFault::NoMemory) => Err(Stop::NoMemory),
        Err(fault) => Ok(fault.to_string(alloc)?.into_bytes()),
    }
}

fn choice_fault(alloc: Global, fault: ChooseFault) -> Result<Vec<u8>, Stop> {
    let text = match fault {
        ChooseFault::Undefined(m, i) => format!(in alloc; "Undefined {m} {i}")?,
        ChooseFault::Duplicate(m, i) => format!(in alloc; "Duplicate {m} {i}")?,
        ChooseFault::WrongKind(m, i) => format!(in alloc; "WrongKind {m} {i}")?,
        ChooseFault::NoMemory => return Err(Stop::NoMemory),
    };
    Ok(text.into_bytes())
}

/// Sources: a library, or `-`, and an index.
fn sources(alloc: Global, sources: &[Source]) -> Result<Vec<u8>, Stop> {
    let mut text = String::new(alloc);
    for source in sources {
        if !text.is_empty() {
            text.push_str(", ")?;
        }
        add_source(alloc, &mut text, *source)?;
    }
    Ok(text.into_bytes())
}

fn add_source(alloc: Global, text: &mut String, source: Source) -> Result<(), Stop> {
    let index = source.index;
    let one = match source.library {
        None => format!(in alloc; "- {index}")?,
        Some(library) => format!(in alloc; "{library} {index}")?,
    };
    Ok(text.push_str(one.as_str())?)
}

fn found(alloc: Global, chosen: &Chosen, name: &str) -> Result<Vec<u8>, Stop>
    requires { AreLinkable chosen.now.modules.items }
{
    match chosen.find(&name_of(name)?) {
        None => said(alloc, "none"),
        Some(definition) => {
            let module = definition.module;
            let kind = match definition.kind {
                Kind::Code => "code",
                Kind::Cell => "cell",
            };
            Ok(format!(in alloc; "{module} {kind}")?.into_bytes())
        }
    }
}

fn answer_linked(
    alloc: Global,
    chosen: &Chosen,
    linked: &Linked,
    words: &[&str],
) -> Result<Vec<u8>, Stop>
    requires linkable { AreLinkable chosen.now.modules.items }
    requires base { IsBase linked.now.cell_base }
    requires linked { IsLinked chosen.now.modules.items linked.now.code_base linked.now.cell_base linked.now }
{
    match words {
        ["code"] => spelled(alloc, &linked.code),
        ["cells"] => spelled(alloc, &linked.cells),
        ["bases"] => base_text(alloc, linked),
        ["items"] => places(alloc, &linked.placed),
        ["places"] => places(alloc, &linked.cell_places),
        ["address", name] => address(alloc, chosen, linked, name),
        _ => Err(Stop::BadCase),
    }
}

fn base_text(alloc: Global, linked: &Linked) -> Result<Vec<u8>, Stop> {
    let code = linked.code_base;
    let cells = linked.cell_base;
    Ok(format!(in alloc; "{code:X} {cells:X}")?.into_bytes())
}

/// Places: a module, an index, an address and a size.
fn places(alloc: Global, places: &[Placed]) -> Result<Vec<u8>, Stop> {
    let mut text = String::new(alloc);
    for place in places {
        if !text.is_empty() {
            text.push_str(", ")?;
        }
        add_place(alloc, &mut text, *place)?;
    }
    Ok(text.into_bytes())
}

fn add_place(alloc: Global, text: &mut String, place: Placed) -> Result<(), Stop> {
    let module = place.module;
    let item = place.item;
    let address = place.address;
    let size = place.size;
    let one = format!(in alloc; "{module} {item} {address:X} {size}")?;
    Ok(text.push_str(one.as_str())?)
}

fn address(alloc: Global, chosen: &Chosen, linked: &Linked, name: &str) -> Result<Vec<u8>, Stop>
    requires linkable { AreLinkable chosen.now.modules.items }
    requires base { IsBase linked.now.cell_base }
    requires linked { IsLinked chosen.now.modules.items linked.now.code_base linked.now.cell_base linked.now }
{
    match linked.address_of(chosen, &name_of(name)?) {
        None => said(alloc, "none"),
        Some(address) => Ok(format!(in alloc; "{address:X}")?.into_bytes()),
    }
}
