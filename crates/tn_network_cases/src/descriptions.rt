ghost use Rattle.std.specs.Prelude.{◌≡◌, ◌≤◌, length, IsTrue, All, IfOk};
ghost use Rattle.tn_net.specs.WholeTrees.{IsWholeTree};
ghost use Rattle.tn_stream.specs.Images.{segment_of, segments_of, image_of, images_of, IsSegment, IsImage, AreImages};

use std::alloc::Global;
use tn_mem::MEMORY_SIZE_MOST;
use tn_stream::{Image, Segment};
use tn_tables::{Case, Line, Stop, byte, number};

/// What the lines of a case describe, without the configuration.
#[derive(Drop)]
pub struct Description<'a> {
    /// The text of the configuration.
    pub config: &'a [u8],
    /// The images of the processors in order.
    pub images: Vec<Image>,
    /// What fills the memories of the first processors, and their Error and HaltOnError.
    pub fills: Vec<Fill>,
    /// What the host has to send, unless that is the stream of the images.
    pub host: Option<&'a [u8]>,
}

/// What fills a memory: numbers that a seed gives, or a byte; and the Error and HaltOnError.
#[derive(Clone, Copy)]
pub struct Fill {
    pub noise: bool,
    pub seed: u32,
    pub error: bool,
    pub halt: bool,
}

/// The description of a case; its lines that ask are passed over.
pub fn read_description<'a>(alloc: Global, case: &'a Case<'_>) -> Result<Description<'a>, Stop> {
    let mut found = Description {
        config: &[],
        images: Vec::new(alloc),
        fills: Vec::new(alloc),
        host: None,
    };
    for line in case.lines.iter() {
        if line.wanted.is_none() {
            add(alloc, &mut found, line)?;
        }
    }
    Ok(found)
}

fn add<'a>(alloc: Global, found: &mut Description<'a>, line: &'a Line<'_>) -> Result<(), Stop> {
    match line.words.as_slice() {
        ["config"] => found.config = line.bytes.as_slice(),
        ["image", entry, wptr] => found.images.push(Image {
            segments: Vec::new(alloc),
            entry: number(entry)?,
            wptr: number(wptr)?,
        })?,
        ["segment", base] => {
            let image = found.images.last_mut().ok_or(Stop::BadCase)?;
            image.segments.push(Segment {
                base: number(base)?,
                bytes: Vec::from_slice(alloc, &line.bytes)?,
            })?;
        }
        ["power", fill, error, halt] => found
            .fills
            .push(fill_of(false, number(fill)?, error, halt))?,
        ["noise", seed, error, halt] => found
            .fills
            .push(fill_of(true, number(seed)?, error, halt))?,
        ["host"] => found.host = Some(line.bytes.as_slice()),
        _ => return Err(Stop::BadCase),
    }
    Ok(())
}

fn fill_of(noise: bool, seed: u32, error: &str, halt: &str) -> Fill {
    Fill {
        noise,
        seed,
        error: error == "1",
        halt: halt == "1",
    }
}

/// Whether all are images of processors in a network.
pub fn are_images(images: &[Image]) -> bool
    ensures { IsTrue result → AreImages (images_of images.now) }
{
    match images {
        [] => true,
        [image, rest @ ..] => is_image(image) && are_images(rest),
    }
}

fn is_image(image: &Image) -> bool
    ensures { IsTrue result → IsImage (image_of image.now) }
{
    image.segments.len() <= 3 && are_segments(image.segments.as_slice())
}

fn are_segments(segments: &[Segment]) -> bool
    ensures { IsTrue result → All IsSegment (segments_of segments.now) }
{
    match segments {
        [] => true,
        [segment, rest @ ..] => is_segment(segment) && are_segments(rest),
    }
}

fn is_segment(segment: &Segment) -> bool
    ensures { IsTrue result → IsSegment (segment_of segment.now) }
{
    1 <= segment.bytes.len() && segment.bytes.len() <= MEMORY_SIZE_MOST as usize
}
