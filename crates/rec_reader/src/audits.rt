//! The audit of a recording: whether it is what its own programs and ends say.

mod answer;
mod auditor;
mod channel;
mod recording;
mod said;

pub use answer::{Audit, AuditFault, AuditLine, AuditLines};
pub use auditor::Auditor;
pub use recording::audit;
