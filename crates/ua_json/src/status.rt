//! Status codes.

use crate::line::Line;
use crate::put::Put;
use ua_value::{NoMemory, StatusCode};

/// The number of the status, and its name where it is known (OPC 10000-6, 5.4.2.12).
impl Put for StatusCode {
    fn put(&self, line: &mut Line) -> Result<(), NoMemory> {
        line.begin_object()?;
        line.field("Code", &self.0)?;
        line.symbol(*self)?;
        line.end_object()
    }
}
