ghost use Rattle.std.specs.Prelude.{◌≡◌, ℕ, ◌≤◌, ◌<◌, ◌*◌, ◌++◌, map, OnOk, IfOk};
ghost use Rattle.tn_config.specs.Grids.{
  joined,
  texts_of,
  cell_name,
  cell_block,
  right_wire,
  down_wire,
  cell_wires,
  grid_config,
  counting,
  worker_text,
  finish_text,
};

use std::alloc::{AllocError, Global};
use std::string::ToString;
use tn_text::word_text;

/// The most rows and columns of a grid.
pub const GRID_MOST: u32 = 8;

/// How often the program of a grid counts.
const COUNTS: u32 = 2000;

/// The texts of a grid: the configuration `grid.cfg`, and the files `worker.tmod` and `fin.tlib` that it
/// names.
#[derive(Drop)]
pub struct GridTexts {
    pub config: Vec<u8>,
    pub worker: Vec<u8>,
    pub library: Vec<u8>,
}

/// The texts of a grid of `n` by `n` processors, each with 65,536 bytes of memory and wired to its
/// neighbours: link 1 to link 3 of the next in the row, link 2 to link 0 of the next in the column. The
/// host has link 0 of the first. Each runs a program that stores the numbers from 0 to 1999, and stops.
/// The grid and its program are this project's own.
pub fn grid(alloc: Global, n: u32) -> Result<GridTexts, AllocError>
    requires least { 1 ≤ n }
    requires most { n ≤ 8 }
    ensures config { IfOk result (λ texts. texts.config.items ≡ grid_config n) }
    ensures worker { IfOk result (λ texts. texts.worker.items ≡ worker_text) }
    ensures library { IfOk result (λ texts. texts.library.items ≡ finish_text) }
{
    let config = config(alloc, n)?;
    let worker = worker(alloc)?;
    let mut library = Vec::new(alloc);
    put(
        &[
            b"tlib 1\ntmod 1\nname spare\nexport spare\ncode\nl spare\no ret\ndata\nend\n",
            b"tmod 1\nname fin\nexport finish\ncode\nl finish\no stopp\ndata\nend\nendlib\n",
        ],
        &mut library,
    )?;
    Ok(GridTexts {
        config,
        worker,
        library,
    })
}

#[tactic(auto, unfolding(crate::specs::Grids::grid_config))]
fn config(alloc: Global, n: u32) -> Result<Vec<u8>, AllocError>
    requires least { 1 ≤ n }
    requires most { n ≤ 8 }
    ensures { IfOk result (λ text. text.items ≡ grid_config n) }
{
    let mut text = Vec::new(alloc);
    put_blocks(n, &mut text)?;
    text.extend_from_slice(b"host p00 0\n")?;
    put_wires(n, &mut text)?;
    Ok(text)
}

fn put_blocks(n: u32, out: &mut Vec<u8>) -> Result<(), AllocError>
    requires least { 1 ≤ n }
    requires most { n ≤ 8 }
    ensures { OnOk result (out.new.items ≡ out.old.items ++ texts_of (cell_block n) (n * n)) }
{
    for k in 0..n * n {
        put_block(n, k, out)?;
    }
    Ok(())
}

fn put_wires(n: u32, out: &mut Vec<u8>) -> Result<(), AllocError>
    requires least { 1 ≤ n }
    requires most { n ≤ 8 }
    ensures { OnOk result (out.new.items ≡ out.old.items ++ texts_of (cell_wires n) (n * n)) }
{
    for k in 0..n * n {
        put_right(n, k, out)?;
        put_down(n, k, out)?;
    }
    Ok(())
}

fn put_block(n: u32, k: u32, out: &mut Vec<u8>) -> Result<(), AllocError>
    requires least { 1 ≤ n }
    requires most { n ≤ 8 }
    requires inside { k < n * n }
    ensures { OnOk result (out.new.items ≡ out.old.items ++ cell_block n k) }
{
    let name = cell_name(k / n, k % n);
    let argument = word_text(k);
    put(
        &[
            b"processor ",
            &name,
            b" 65536\ncode #80000400\ndata #80002400\nworkspace #80002800 16 16\n",
            b"module worker.tmod\nlibrary fin.tlib\nentry main\narg ",
            &argument,
            b"\nend\n",
        ],
        out,
    )
}

fn put_right(n: u32, k: u32, out: &mut Vec<u8>) -> Result<(), AllocError>
    requires least { 1 ≤ n }
    requires most { n ≤ 8 }
    requires inside { k < n * n }
    ensures { OnOk result (out.new.items ≡ out.old.items ++ right_wire n k) }
{
    if k % n + 1 < n {
        let here = cell_name(k / n, k % n);
        let there = cell_name(k / n, k % n + 1);
        put(&[b"wire ", &here, b" 1 ", &there, b" 3\n"], out)
    } else {
        Ok(())
    }
}

fn put_down(n: u32, k: u32, out: &mut Vec<u8>) -> Result<(), AllocError>
    requires least { 1 ≤ n }
    requires most { n ≤ 8 }
    requires inside { k < n * n }
    ensures { OnOk result (out.new.items ≡ out.old.items ++ down_wire n k) }
{
    if k / n + 1 < n {
        let here = cell_name(k / n, k % n);
        let there = cell_name(k / n + 1, k % n);
        put(&[b"wire ", &here, b" 2 ", &there, b" 0\n"], out)
    } else {
        Ok(())
    }
}

/// The name of the processor in a row and a column.
fn cell_name(row: u32, column: u32) -> [u8; 3]
    requires row { row < 10 }
    requires column { column < 10 }
    ensures { result ≡ cell_name row column }
{
    [b'p', b'0' + row as u8, b'0' + column as u8]
}

#[tactic(auto, unfolding(crate::specs::Grids::worker_text))]
fn worker(alloc: Global) -> Result<Vec<u8>, AllocError>
    ensures { IfOk result (λ text. text.items ≡ worker_text) }
{
    let mut text = Vec::new(alloc);
    text.extend_from_slice(
        b"tmod 1\nname worker\nimport code finish\nexport main\ncode\nl main\n",
    )?;
    put_counting(alloc, COUNTS, &mut text)?;
    text.extend_from_slice(b"i j finish\ndata\nl count\nw 0\nend\n")?;
    Ok(text)
}

fn put_counting(alloc: Global, count: u32, out: &mut Vec<u8>) -> Result<(), AllocError>
    ensures { OnOk result (out.new.items ≡ out.old.items ++ texts_of counting count) }
{
    for number in 0..count {
        put_counted(alloc, number, out)?;
    }
    Ok(())
}

fn put_counted(alloc: Global, number: u32, out: &mut Vec<u8>) -> Result<(), AllocError>
    ensures { OnOk result (out.new.items ≡ out.old.items ++ counting number) }
{
    let digits = number.to_string(alloc)?;
    put(&[b"i ldc ", digits.as_bytes(), b"\ni stl 1\n"], out)
}

/// Puts pieces one after the other.
fn put(pieces: &[&[u8]], out: &mut Vec<u8>) -> Result<(), AllocError>
    ensures { OnOk result (out.new.items ≡ out.old.items ++ joined (map (λ piece. piece.now) pieces.now)) }
{
    for piece in pieces {
        out.extend_from_slice(piece)?;
    }
    Ok(())
}
