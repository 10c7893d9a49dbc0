// The library of itself: its version, and how long each lent range is, for hosts that have no macros.
ghost use Rattle.std.specs.Prelude.{◌≡◌};
ghost use Rattle.dvs.specs.Library.{version, list_size, tables_size, size_of};

use views::limits;

// Major · 10000 + minor · 100 + patch.
pub const VERSION: u32 = 600;

// The ranges by number: of the member by itself and of messages, then of a whole group and of a run.
pub const BOOK: u32 = 1;

pub const EVENT: u32 = 2;

pub const LENGTH: u32 = 3;

pub const MESSAGE: u32 = 4;

pub const BUFFER: u32 = 5;

pub const LIST: u32 = 6;

pub const BOOKS: u32 = 7;

pub const QUEUES: u32 = 8;

pub const STEP: u32 = 9;

pub const ANSWER: u32 = 10;

// And of a packet.
pub const DELIVERY: u32 = 11;

// And of a view that may be missing.
pub const FOUND: u32 = 12;

// The version of the library.
#[unsafe(no_mangle)]
pub extern "C" fn dvs_version() -> u32
    ensures { result ≡ version }
{
    VERSION
}

// A list with room for so many views.
fn list_size(views: u32) -> usize
    ensures { result ≡ list_size views }
{
    if (1..=limits::VIEWS).contains(&(views as usize)) {
        group_bytes::VIEW * views as usize
    } else {
        0
    }
}

// The queues for such a list.
fn queues_size(views: u32) -> usize
    ensures { result ≡ tables_size views }
{
    if (1..=limits::VIEWS).contains(&(views as usize)) {
        group_bytes::HEAD + group_bytes::TABLE * views as usize
    } else {
        0
    }
}

// The length of a range by its number, for so many views where they count; 0 for an unknown range or views that are not
// 1 to 32.
#[unsafe(no_mangle)]
pub extern "C" fn dvs_size(range: u32, views: u32) -> u64
    ensures { result ≡ size_of range views }
{
    let size = match range {
        BOOK => book_bytes::SIZE,
        EVENT => c_answers::EVENT,
        LENGTH => c_answers::LENGTH,
        MESSAGE => wire::record::RECORD,
        BUFFER => limits::LONGEST,
        LIST => list_size(views),
        BOOKS => group_bytes::BOOKS,
        QUEUES => queues_size(views),
        STEP => group_run::STEP,
        ANSWER => group_run::ANSWER,
        DELIVERY => c_answers::DELIVERY,
        FOUND => c_answers::FOUND,
        _ => 0,
    };
    size as u64
}
