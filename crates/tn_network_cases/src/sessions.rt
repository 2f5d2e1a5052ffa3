ghost use Rattle.std.specs.Prelude.{◌≡◌, ◌<◌, length};

use crate::descriptions::read_description;
use crate::digests::{memory_digest, net_digest};
use crate::setups::{Setup, set_up};
use crate::shown;
use std::alloc::Global;
use tn_load::{loaded, settle};
use tn_mem::Space;
use tn_net::Far;
use tn_network::{Net, Pick};
use tn_node::Made;
use tn_stream::Image;
use tn_tables::{Case, Report, Stop, decimal, number, said};

/// Runs a case of a table of networks: lines without ` => ` describe a network, and the others pick
/// or ask, one after the other.
pub fn run_case(alloc: Global, case: &Case<'_>, report: &mut Report) -> Result<(), Stop> {
    let found = read_description(alloc, case)?;
    let mut setup = set_up(alloc, &found)?;
    run_lines(alloc, case, &found.images, &mut setup, report)
}

fn run_lines(
    alloc: Global,
    case: &Case<'_>,
    images: &[Image],
    setup: &mut Setup,
    report: &mut Report,
) -> Result<(), Stop> {
    for line in case.lines.iter() {
        if line.wanted.is_some() {
            let came = answer(alloc, setup, images, line.words.as_slice());
            report.answer(alloc, case.name, line, came)?;
        }
    }
    Ok(())
}

/// What a line gives.
fn answer(
    alloc: Global,
    setup: &mut Setup,
    images: &[Image],
    words: &[&str],
) -> Result<Vec<u8>, Stop> {
    match words {
        ["settle", most] => settled(alloc, &mut setup.net, most, false),
        ["settle", most, "back"] => settled(alloc, &mut setup.net, most, true),
        ["release"] => release(alloc, &mut setup.net),
        ["go", words @ ..] => go(alloc, setup, words),
        ["turns", count, words @ ..] => turns(alloc, setup, count, words),
        ["made"] => Ok(setup.made.to_string(alloc)?.into_bytes()),
        ["step", words @ ..] => step(alloc, setup, words),
        ["enabled", words @ ..] => is_enabled(alloc, &setup.net, words),
        ["ready", words @ ..] => is_ready(alloc, &setup.net, words),
        ["stream"] => stream_text(alloc, setup.stream),
        ["loaded"] => is_loaded(alloc, &setup.net, images),
        words => look(alloc, &setup.net, words),
    }
}

fn release(alloc: Global, net: &mut Net) -> Result<Vec<u8>, Stop> {
    net.release();
    said(alloc, "done")
}

fn is_enabled(alloc: Global, net: &Net, words: &[&str]) -> Result<Vec<u8>, Stop> {
    yes(alloc, net.enabled(pick_of(words)?))
}

fn is_ready(alloc: Global, net: &Net, words: &[&str]) -> Result<Vec<u8>, Stop> {
    yes(alloc, net.board().ready(pick_of(words)?))
}

/// The bytes of a stream, and the steps of loading it.
fn stream_text(alloc: Global, stream: Option<(u64, u64)>) -> Result<Vec<u8>, Stop> {
    match stream {
        Some((bytes, steps)) => Ok(format!(in alloc; "{bytes} {steps}")?.into_bytes()),
        None => Err(Stop::BadCase),
    }
}

fn settled(alloc: Global, net: &mut Net, most: &str, back: bool) -> Result<Vec<u8>, Stop> {
    let (steps, rested) = settle(net, decimal(most)?, back);
    let how = if rested { "rest" } else { "budget" };
    Ok(format!(in alloc; "{how} {steps}")?.into_bytes())
}

/// The pick that words spell.
fn pick_of(words: &[&str]) -> Result<Pick, Stop> {
    match words {
        ["hs"] => Ok(Pick::HostSend),
        ["ht"] => Ok(Pick::HostTake),
        ["p", p] => Ok(Pick::Proc(number(p)?, false, 0)),
        ["p", p, slice, clock] => Ok(Pick::Proc(number(p)?, *slice == "1", number(clock)?)),
        ["s", p, l] => Ok(Pick::Send(number(p)?, link_of(l)?)),
        ["t", p, l] => Ok(Pick::Take(number(p)?, link_of(l)?)),
        _ => Err(Stop::BadCase),
    }
}

fn link_of(word: &str) -> Result<u8, Stop> {
    word.parse::<u8>().ok().ok_or(Stop::BadCase)
}

/// The picks that words spell, with commas between them.
fn picks_of(alloc: Global, words: &[&str]) -> Result<Vec<Pick>, Stop> {
    let mut picks = Vec::new(alloc);
    let mut one = Vec::new(alloc);
    for word in words {
        if *word == "," {
            picks.push(pick_of(one.as_slice())?)?;
            one.clear();
        } else {
            one.push(*word)?;
        }
    }
    picks.push(pick_of(one.as_slice())?)?;
    Ok(picks)
}

/// Makes a pick, and tells what it was.
fn go(alloc: Global, setup: &mut Setup, words: &[&str]) -> Result<Vec<u8>, Stop> {
    let made = setup.net.apply(pick_of(words)?);
    if made.is_ok() {
        setup.made = setup.made.saturating_add(1);
    }
    match made {
        Ok(Made::Prefix) => said(alloc, "prefix"),
        Ok(Made::Whole) => said(alloc, "whole"),
        Ok(Made::Link) => said(alloc, "link"),
        Err(_) => said(alloc, "refused"),
    }
}

/// Makes picks one after the other, all of them so many times, and tells the first that is refused.
fn turns(alloc: Global, setup: &mut Setup, count: &str, words: &[&str]) -> Result<Vec<u8>, Stop> {
    let picks = picks_of(alloc, words)?;
    make_turns(alloc, setup, decimal(count)?, &picks)
}

fn make_turns(
    alloc: Global,
    setup: &mut Setup,
    count: u64,
    picks: &[Pick],
) -> Result<Vec<u8>, Stop> {
    for turn in 0..count {
        for pick in picks {
            if setup.net.apply(*pick).is_err() {
                let pick = shown::pick(alloc, *pick)?;
                let mut text = format!(in alloc; "turn {turn} refused ")?.into_bytes();
                text.extend_from_slice(&pick)?;
                return Ok(text);
            }
            setup.made = setup.made.saturating_add(1);
        }
    }
    said(alloc, "done")
}

/// Makes a pick, and tells a digest of the state behind it, with the memories of the processors that
/// it may have changed.
fn step(alloc: Global, setup: &mut Setup, words: &[&str]) -> Result<Vec<u8>, Stop> {
    let pick = pick_of(words)?;
    let (p, far) = ends(setup, pick);
    if setup.net.apply(pick).is_err() {
        return said(alloc, "refused");
    }
    let mut digest = memory_digest(net_digest(&setup.net), setup.net.board(), p);
    if let Some(q) = far {
        digest = memory_digest(digest, setup.net.board(), q);
    }
    Ok(format!(in alloc; "{digest:016X}")?.into_bytes())
}

/// The processor that a pick is of, and the one at the other end of its wire.
fn ends(setup: &Setup, pick: Pick) -> (u32, Option<u32>) {
    match pick {
        Pick::HostSend | Pick::HostTake => (setup.network.root().0, None),
        Pick::Proc(p, _, _) => (p, None),
        Pick::Send(p, l) => (p, far_of(setup, p, l)),
        Pick::Take(p, l) => (p, far_of(setup, p, l)),
    }
}

fn far_of(setup: &Setup, p: u32, l: u8) -> Option<u32> {
    if p >= setup.network.count() || l >= 4 {
        return None;
    }
    match setup.network.far(p, l) {
        Far::Link(q, _) => Some(q),
        Far::Nothing | Far::Host => None,
    }
}

fn yes(alloc: Global, holds: bool) -> Result<Vec<u8>, Stop> {
    said(alloc, if holds { "yes" } else { "no" })
}

fn is_loaded(alloc: Global, net: &Net, images: &[Image]) -> Result<Vec<u8>, Stop> {
    if images.len() != net.board().count() as usize {
        return Err(Stop::BadCase);
    }
    yes(alloc, loaded(net, images))
}

/// What a network tells.
fn look(alloc: Global, net: &Net, words: &[&str]) -> Result<Vec<u8>, Stop> {
    match words {
        ["rest"] => yes(alloc, net.at_rest()),
        ["held"] => yes(alloc, net.held()),
        ["first"] => first(alloc, net, false),
        ["last"] => first(alloc, net, true),
        ["left"] => Ok(net.host_left().to_string(alloc)?.into_bytes()),
        ["sent"] => yes(alloc, net.board().host_sent()),
        ["got"] => tn_tables::spelled(alloc, net.host_got()),
        ["host"] => shown::byte_or_none(alloc, net.board().host_latch()),
        ["latch", p, l] => latch(alloc, net, p, l),
        ["mode", p] => mode(alloc, net, p),
        ["show", p] => show(alloc, net, p),
        ["word", p, a] => word(alloc, net, p, a),
        ["state"] => state(alloc, net),
        _ => Err(Stop::BadCase),
    }
}

fn first(alloc: Global, net: &Net, back: bool) -> Result<Vec<u8>, Stop> {
    match net.first(back) {
        Some(pick) => shown::pick(alloc, pick),
        None => said(alloc, "none"),
    }
}

fn latch(alloc: Global, net: &Net, p: &str, l: &str) -> Result<Vec<u8>, Stop> {
    let (p, l) = (number(p)?, link_of(l)?);
    if p >= net.board().count() || l >= 4 {
        return Err(Stop::BadCase);
    }
    shown::byte_or_none(alloc, net.latch(p, l))
}

fn mode(alloc: Global, net: &Net, p: &str) -> Result<Vec<u8>, Stop> {
    let p = number(p)?;
    if p >= net.board().count() {
        return Err(Stop::BadCase);
    }
    let mode = net.node(p).mode();
    Ok(format!(in alloc; "{mode:?}")?.into_bytes())
}

fn show(alloc: Global, net: &Net, p: &str) -> Result<Vec<u8>, Stop> {
    let p = number(p)?;
    if p >= net.board().count() {
        return Err(Stop::BadCase);
    }
    shown::registers(alloc, &net.node(p).cpu().view())
}

fn word(alloc: Global, net: &Net, p: &str, a: &str) -> Result<Vec<u8>, Stop> {
    let (p, a) = (number(p)?, number(a)?);
    if p >= net.board().count() {
        return Err(Stop::BadCase);
    }
    match net.node(p).cpu().memory().word(a) {
        Ok(word) => Ok(format!(in alloc; "{word:X}")?.into_bytes()),
        Err(_) => said(alloc, "refused"),
    }
}

/// A digest of the whole state.
fn state(alloc: Global, net: &Net) -> Result<Vec<u8>, Stop> {
    let board = net.board();
    let mut digest = net_digest(net);
    for p in 0..board.count() {
        digest = memory_digest(digest, board, p);
    }
    Ok(format!(in alloc; "{digest:016X}")?.into_bytes())
}
