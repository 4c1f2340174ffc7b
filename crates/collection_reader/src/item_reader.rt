//! Readers of the items of a collection.
ghost use Rattle.std.specs.Prelude.{◌≡◌, ◌⊎◌, ◌<◌, ◌≤◌, ℕ, List, Some, length, take, IfOk, IfSome, IsSomeAnd, MatchOption, MatchResult};
ghost use Rattle.std.specs.Io.KnownBytes.{Consumes, IsAtEnd, Keeps};
ghost use Rattle.collection_reader.specs.Pages.{AreItemLinesOf, BreaksOff};

use crate::document::Document;
use crate::document_end::put_end;
use crate::lines_in_place::rewrite;
use std::alloc::{AllocError, Global};
use std::io;
use std::io::{Error, ErrorKind, Read};
use std::marker::Model;

/// Gives the items of a collection, each as a line, as its document comes. A line is the bytes of the item, with a
/// space for each line feed and carriage return in it, and a line feed.
///
/// It holds what stands around the items, and of these nothing. A document that is no collection, or has more than one
/// member `value`, is only known as such when that comes: then the byte 0xff, which no text has, ends the lines, so
/// that the last one is no JSON.
#[derive(Drop)]
pub struct ItemReader<R: Read> {
    alloc: Global,
    reader: R,
    document: Document,
    /// Whether a read failed since an allocation did.
    is_out_of_memory: bool,
}

impl<R: Read> Model for ItemReader<R> {
    ghost use Rattle.std.specs.Prelude.{ℕ, List, Option, option_map};
    ghost use Rattle.collection_reader.specs.private.ItemText.{scanned, text_left};

    ghost Value = { Option (List ℕ) };

    ghost view = { λ r. option_map (text_left (scanned r.document)) (R.remaining r.reader) };
}

impl<R: Read> ItemReader<R> {
    /// Creates a reader of the items of the document that another one has left.
    pub fn new(alloc: Global, reader: R) -> ItemReader<R>
        ensures { (document : List ℕ) → R.remaining reader ≡ Some document
            → IsSomeAnd result (λ text. AreItemLinesOf document text ⊎ BreaksOff document text) }
    {
        ItemReader {
            alloc,
            reader,
            document: Document::new(alloc),
            is_out_of_memory: false,
        }
    }

    /// Whether the last read failed since an allocation did. It has no clause: what is reported of that is tested.
    pub fn is_out_of_memory(&self) -> bool {
        self.is_out_of_memory
    }

    /// A read that fails since an allocation did.
    fn out_of_memory(&mut self) -> Error
        ensures { self.new ≡ self.old }
    {
        self.is_out_of_memory = true;
        Error::from(ErrorKind::OutOfMemory)
    }

    /// Reads once; how many bytes are given. `None` where none is given of what was read, and more may come.
    fn read_once(&mut self, bytes: &mut [u8]) -> io::Result<Option<usize>>
        requires some { 0 < length bytes.old }
        ensures len { length bytes.new ≡ length bytes.old }
        ensures few { IfOk result (λ given. IfSome given (λ count. count ≤ length bytes.new)) }
        ensures given { MatchResult result (λ given. MatchOption given (Keeps self.old self.new)
            (λ count. Consumes self.old self.new (take count bytes.new) × (count ≡ 0 → IsAtEnd self.new)))
            (λ error. Keeps self.old self.new) }
    {
        if self.document.reserve(bytes.len()).is_err() {
            return Err(self.out_of_memory());
        }
        let count = self.reader.read(bytes)?;
        if count == 0 {
            return match put_end(self.alloc, &mut self.document, bytes) {
                Ok(put) => Ok(Some(put)),
                Err(AllocError) => Err(self.out_of_memory()),
            };
        }
        let put = rewrite(&mut self.document, bytes, count);
        if put == 0 {
            return Ok(None);
        }
        Ok(Some(put))
    }
}

impl<R: Read> Read for ItemReader<R> {
    ghost remaining = { λ r. r };

    fn read(&mut self, bytes: &mut [u8]) -> io::Result<usize> {
        if bytes.is_empty() {
            return Ok(0);
        }
        for _ in 0..u64::MAX {
            if let Some(count) = self.read_once(bytes)? {
                return Ok(count);
            }
        }
        Err(Error::from(ErrorKind::InvalidData))
    }
}
