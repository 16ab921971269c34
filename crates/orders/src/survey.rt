ghost use Rattle.orders.specs.Records.{ReadOnce, orders};
ghost use Rattle.orders.specs.Surveys.{Surveyed};

use crate::reader::Reader;
use crate::record::RecordFault;

// A file read to where reading stops: how many records, the place of the first byte not read, and the fault there,
// or none at the end of the file.
#[derive(Clone, Copy, Debug, PartialEq, Eq)]
pub struct Survey {
    pub records: usize,
    pub place: usize,
    pub fault: Option<RecordFault>,
}

impl Survey {
    // Reads the file record by record to where reading stops.
    // Kept: a run's loop is like this one, but its turns change a book and can fail for want of memory.
    pub fn of(file: &[u8]) -> Survey
        ensures { Surveyed file.now result }
    {
        let mut reader = Reader::new(file);
        let mut records = 0;
        let fault = loop {
            match reader.next() {
                Ok(Some(_)) => records += 1,
                Ok(None) => break None,
                Err(fault) => break Some(fault),
            }
        };
        Survey {
            records,
            place: reader.place(),
            fault,
        }
    }
}

// Every file is records and a stop in one way and no other.
pub fn read_once()
    ensures { ReadOnce orders }
{}
