//! Values that no row holds any more, to be filled again.
ghost use Rattle.std.specs.Prelude.{◌≡◌, ◌<◌, ◌≤◌, ℕ, length, take, IsTrue};
ghost use Rattle.spare_values.specs.Fillers.{HoldsFiller, HoldsNoItems};

use super::stored_texts::{TEXT_ROOM, is_filled_again};
use edm_values::Value;
use std::alloc::Global;
use std::mem;

/// How many records of a type are kept, and how many texts.
const SPARES: usize = 64;

/// The greatest capacity of a list that is filled again, in values.
const LIST_ROOM: usize = 1024;

/// The greatest capacity of a list within a stored value, in values.
const SMALL_LIST: usize = 64;

/// How deep values within a value that is kept may nest.
const SMALL_DEPTH: usize = 8;

/// Values that may be filled again: records of a type, by its index, texts, or none.
#[derive(Clone, Copy, Drop)]
pub enum Spare {
    Record(usize),
    Text,
    Other,
}

/// A value without heap that stands where another one is not wanted.
#[derive(Clone, Copy, Drop)]
pub enum Filler {
    NoItems,
    Null,
    EmptyText,
}

/// Records and texts to be filled again. What they hold is irrelevant.
#[derive(Drop)]
pub struct Spares {
    alloc: Global,
    /// Records, by the index of their type.
    records: Vec<Vec<Value>>,
    texts: Vec<Value>,
}

impl Spares {
    /// None is kept yet. It has no clause: no answer depends on what is kept.
    pub fn new(alloc: Global) -> Spares {
        Spares {
            alloc,
            records: Vec::new(alloc),
            texts: Vec::new(alloc),
        }
    }

    /// A record of the type at an index, if one is stored; else null.
    fn record(&mut self, place: usize) -> Value {
        if place >= self.records.len() {
            return Value::Null;
        }
        match self.records[place].pop() {
            Some(record) => record,
            None => Value::Null,
        }
    }

    /// A value to be filled.
    fn take(&mut self, spare: Spare) -> Value {
        match spare {
            Spare::Record(place) => self.record(place),
            Spare::Text => match self.texts.pop() {
                Some(text) => text,
                None => Value::Null,
            },
            Spare::Other => Value::Null,
        }
    }

    /// Whether records of the type at an index may be stored.
    fn has_place(&mut self, place: usize) -> bool
        ensures { IsTrue result → place < length self.new.records.items }
    {
        'more: while self.records.len() <= place {
            if self.records.push(Vec::new(self.alloc)).is_err() {
                return false;
            }
        }
        true
    }

    /// Stores a record of the type at an index.
    fn keep_record(&mut self, place: usize, record: Value) {
        if !is_small(&record, SMALL_DEPTH) || !self.has_place(place) {
            return;
        }
        if self.records[place].len() < SPARES {
            drop(self.records[place].push(record));
        }
    }

    /// Keeps a value that no row holds any more, if it is of that kind.
    #[inline(always)]
    fn keep(&mut self, spare: Spare, value: Value) {
        match spare {
            Spare::Record(place) => if is_record(&value) {
                self.keep_record(place, value);
            },
            Spare::Text => if is_filled_again(&value) && self.texts.len() < SPARES {
                drop(self.texts.push(value));
            },
            Spare::Other => {}
        }
    }

    /// Puts null into a slot; its value is stored.
    #[inline(never)]
    pub fn put_null(&mut self, spare: Spare, value: &mut Value)
        ensures { value.new ≡ Value.Null }
    {
        let old = mem::replace(value, Value::Null);
        self.keep(spare, old);
    }

    /// Puts a value without heap into a slot; the parts of its value are stored.
    #[inline(never)]
    pub fn put_filler(&mut self, filler: Filler, spare: Spare, value: &mut Value)
        ensures { HoldsFiller filler value.new }
    {
        match filler {
            Filler::NoItems => self.put_no_items(spare, value),
            Filler::Null => self.put_null(spare, value),
            Filler::EmptyText => *value = Value::Text(String::new(self.alloc)),
        }
    }

    /// Puts a list without items.
    fn put_no_items(&mut self, spare: Spare, value: &mut Value)
        ensures { HoldsNoItems value.new }
    {
        match value {
            Value::List(items) => self.cut(spare, items, 0),
            _ => *value = Value::List(Vec::new(self.alloc)),
        }
    }

    /// Makes sure that a slot holds a record. It has no clause: `record_in` says what the slot holds.
    #[inline(always)]
    pub fn begin_record(&mut self, spare: Spare, value: &mut Value) {
        if let Value::Record(_) = value {
            return;
        }
        self.put_record(spare, value);
    }

    #[inline(never)]
    fn put_record(&mut self, spare: Spare, value: &mut Value) {
        *value = match self.take(spare) {
            Value::Record(values) => Value::Record(values),
            _ => Value::Record(Vec::new(self.alloc)),
        };
    }

    /// Puts a record of few values instead of another one, which is stored.
    #[inline(never)]
    pub fn put_few(&mut self, spare: Spare, held: Vec<(usize, Value)>, value: &mut Value)
        ensures { value.new ≡ Value.Sparse held }
    {
        let old = mem::replace(value, Value::Sparse(held));
        self.keep(spare, old);
    }

    /// Makes sure that a slot holds a list of small capacity. It has no clause: `list_in` says what the slot holds.
    #[inline(always)]
    pub fn begin_list(&mut self, value: &mut Value) {
        if let Value::List(old) = value {
            if old.capacity() <= LIST_ROOM {
                return;
            }
        }
        *value = Value::List(Vec::new(self.alloc));
    }

    /// Whether a list has an item after so many; one is added where it has none. Its clauses say nothing of false.
    #[inline(always)]
    pub fn has_item(&mut self, spare: Spare, items: &mut Vec<Value>, count: usize) -> bool
        requires { count ≤ length items.old.items }
        ensures room { IsTrue result → count < length items.new.items }
        ensures kept { take count items.new.items ≡ take count items.old.items }
    {
        count < items.len() || self.add_item(spare, items)
    }

    #[inline(never)]
    fn add_item(&mut self, spare: Spare, items: &mut Vec<Value>) -> bool
        ensures room { IsTrue result → length items.old.items < length items.new.items }
        ensures kept { (count : ℕ) → count ≤ length items.old.items
            → take count items.new.items ≡ take count items.old.items }
    {
        let value = self.take(spare);
        items.push(value).is_ok()
    }

    /// Keeps the first items of a list alone, so many.
    #[inline(always)]
    pub fn cut(&mut self, spare: Spare, items: &mut Vec<Value>, count: usize)
        ensures { items.new.items ≡ take count items.old.items }
    {
        if items.len() > count {
            self.cut_some(spare, items, count);
        }
    }

    #[inline(never)]
    fn cut_some(&mut self, spare: Spare, items: &mut Vec<Value>, count: usize)
        ensures { items.new.items ≡ take count items.old.items }
    {
        'extra: while items.len() > count {
            if let Some(value) = items.pop() {
                self.keep(spare, value);
            }
        }
    }
}

fn is_record(value: &Value) -> bool {
    match value {
        Value::Record(_) => true,
        _ => false,
    }
}

/// Whether little memory is held by a value, so many levels deep.
#[cycle(small)]
fn is_small(value: &Value, depth: usize) -> bool {
    match value {
        Value::Text(text) => text.capacity() <= TEXT_ROOM,
        Value::Record(values) => depth > 0 && are_small(values, depth - 1),
        Value::Sparse(_) => false,
        Value::List(items) => {
            depth > 0 && items.capacity() <= SMALL_LIST && are_small(items, depth - 1)
        }
        _ => true,
    }
}

#[cycle(small)]
fn are_small(values: &Vec<Value>, depth: usize) -> bool {
    for place in 0..values.len() {
        if !is_small(&values[place], depth) {
            return false;
        }
    }
    true
}
