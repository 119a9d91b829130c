// What files were asked for, as plain data.
use rx_base::Bytes;

/// A call on named files, by its file's name. One that answered `Memory` leaves none.
#[derive(Debug, Drop)]
pub enum FileCall {
    Loaded(Bytes),
    Started(Bytes),
    Added(Bytes),
}
