use super::back_table::BackTable;
use super::data_pages::DataPages;
use walk::own_bytes::OwnBytes;

pub mod making;

// What is kept of a translated program besides its frame. No `PartialEq`, since its back table has none.
#[derive(Clone, Copy, Debug)]
pub struct Kept {
    pub back: BackTable,
    pub own: OwnBytes,
    pub pages: DataPages,
}
