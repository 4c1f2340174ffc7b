//! Readers of the lines that begin in one part of a file.
ghost use Rattle.std.specs.Prelude.{◌≡◌, ◌≤◌, ℕ, List, Some, IfOk};
ghost use Rattle.line_filter.specs.Parts.{HasLines, IsSoughtOver, lines_of_part};
ghost use Rattle.line_filter.specs.private.PartText.{text_within};

use super::part::{Part, part_end};
use super::through_line::ThroughLine;
use std::alloc::Global;
use std::io;
use std::io::{BufRead, BufReader, Read, Seek, SeekFrom};
use std::marker::Model;

/// Reads the lines that begin in one part of a file, and ends after the last one.
#[derive(Drop)]
pub struct PartReader<R: Read> {
    lines: BufReader<ThroughLine<R>>,
}

impl<R: Read> Model for PartReader<R> {
    ghost use Rattle.std.specs.Prelude.{ℕ, List, Option};
    ghost use Rattle.std.specs.Io.Buffered.{reader_remaining};
    ghost use Rattle.line_filter.specs.private.PartText.{left_through};

    ghost Value = { Option (List ℕ) };

    ghost view = { λ p. reader_remaining (left_through R.remaining) p.lines };
}

impl<R: Read> Read for PartReader<R> {
    ghost remaining = { λ p. p };

    fn read(&mut self, bytes: &mut [u8]) -> io::Result<usize> {
        self.lines.read(bytes)
    }
}

/// A reader of the lines that begin at one offset or after it, and before the other.
fn lines_between<R: Read + Seek + Drop>(
    alloc: Global,
    mut reader: R,
    from: u64,
    to: u64,
) -> io::Result<PartReader<R>>
    requires { from ≤ to }
    ensures { (bytes : List ℕ) → IsSoughtOver R.remaining R.stream_position R.stream_bytes reader bytes
        → IfOk result (λ lines. lines ≡ Some (text_within from to bytes)) }
{
    let start = from.saturating_sub(1);
    reader.seek(SeekFrom::Start(start))?;
    let through = ThroughLine {
        reader,
        before: to.saturating_sub(start + 1),
        is_over: to == 0,
    };
    let mut lines = BufReader::new(alloc, through)?;
    if from == 0 {
        return Ok(PartReader { lines });
    }
    lines.skip_until(b'\n')?;
    Ok(PartReader { lines })
}

/// Returns a reader of the lines that begin in one of the equal parts of what `reader` has.
///
/// That is all from its start to its end, wherever it stands. So the readers of all parts give each line once. A last
/// line without LF is given as it is. `reader` is asked for its length first, which must not change while parts are read.
/// An error is one of `reader`, or of the kind `OutOfMemory`.
pub fn part_of<R: Read + Seek + Drop>(
    alloc: Global,
    mut reader: R,
    part: Part,
) -> io::Result<PartReader<R>>
    ensures { (bytes : List ℕ) → IsSoughtOver R.remaining R.stream_position R.stream_bytes reader bytes
        → IfOk result (λ lines. HasLines lines (lines_of_part part.number part.count bytes)) }
{
    let size = reader.seek(SeekFrom::End(0))?;
    let from = part_end(size, part.count, part.number - 1);
    let to = part_end(size, part.count, part.number);
    lines_between(alloc, reader, from, to)
}
