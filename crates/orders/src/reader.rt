ghost use Rattle.std.specs.Prelude.{◌≡◌, ◌+◌, ◌≤◌, length, drop};
ghost use Rattle.orders.specs.Records.{read, orders, taken};
ghost use Rattle.orders.specs.Meanings.{ordered};
ghost use Rattle.orders.specs.Readings.{answered, seen};

use crate::kind::Kind;
use crate::order::Order;
use crate::record::{Record, RecordFault};

// A file with the place up to which it has been read.
#[derive(Drop)]
pub struct Reader<'a> {
    file: &'a [u8],
    place: usize,
    ghost within: { place ≤ length file.now },
}

impl<'a> Reader<'a> {
    // A reader at the file's first byte.
    pub fn new(file: &'a [u8]) -> Reader<'a>
        ensures file { result.file.now ≡ file.now }
        ensures place { result.place ≡ 0 }
    {
        Reader { file, place: 0 }
    }

    // The place of the first byte that has not been read.
    pub fn place(&self) -> usize
        ensures { result ≡ self.now.place }
    {
        self.place
    }

    // The next record, or none at the end of the file; or why the bytes that are left begin with no record.
    // Without a record the place stays.
    pub fn next(&mut self) -> Result<Option<Record<'a>>, RecordFault>
        ensures read { seen result ≡ read orders (drop self.old.place self.old.file.now) }
        ensures place { self.new.place ≡ self.old.place + taken (seen result) }
        ensures file { self.new.file.now ≡ self.old.file.now }
    {
        let Reader { file, place } = self;
        let (_, left) = file.split_at(*place);
        let [first, second, rest @ ..] = left else {
            return if left.is_empty() {
                Ok(None)
            } else {
                Err(RecordFault::Short)
            };
        };
        let kind = Kind::try_from([*first, *second])?;
        let body = rest.get(0..kind.body_len()).ok_or(RecordFault::Short)?;
        *place += 2 + body.len();
        Ok(Some(Record::new(kind, body)))
    }

    // The order of the next record, or none at the end of the file; or why the bytes that are left begin with no
    // record. Without a record the place stays.
    pub fn next_order(&mut self) -> Result<Option<Order>, RecordFault>
        ensures read { answered result ≡ ordered (read orders (drop self.old.place self.old.file.now)) }
        ensures place { self.new.place ≡ self.old.place + taken (read orders (drop self.old.place self.old.file.now)) }
        ensures file { self.new.file.now ≡ self.old.file.now }
    {
        let Some(record) = self.next()? else {
            return Ok(None);
        };
        Ok(record.order())
    }
}
