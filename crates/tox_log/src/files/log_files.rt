//! Where the bytes of logs go.
ghost use Rattle.std.specs.Prelude.{◌≡◌, ◌≤◌, IsTrue, length};
ghost use Rattle.tox_log.specs.files.FileName.{names_file};
ghost use Rattle.tox_log.specs.files.WholeLines.{AreLines};

/// Where the bytes of logs go.
pub trait LogFiles {
    /// Makes the log of a name with its first whole lines. Tells how many bytes it took: fewer once it fails.
    fn create(&self, name: &str, bytes: &[u8]) -> usize
        requires named { IsTrue (names_file name.now) }
        requires whole { AreLines bytes.now }
        ensures { result ≤ length bytes.now };

    /// Appends whole lines to the log of a name, which was made. Tells how many bytes it took: fewer once it fails.
    fn append(&self, name: &str, bytes: &[u8]) -> usize
        requires named { IsTrue (names_file name.now) }
        requires whole { AreLines bytes.now }
        ensures { result ≤ length bytes.now };

    /// Notified once of a log that ends before its stream: how many whole lines its file has.
    fn ended(&self, name: &str, lines: u64)
        requires { IsTrue (names_file name.now) };
}

/// No log is kept.
#[derive(Clone, Copy, Debug, PartialEq, Eq)]
pub struct NoLogs;

impl LogFiles for NoLogs {
    fn create(&self, _name: &str, bytes: &[u8]) -> usize
        ensures { result ≡ length bytes.now }
    {
        bytes.len()
    }

    fn append(&self, _name: &str, bytes: &[u8]) -> usize
        ensures { result ≡ length bytes.now }
    {
        bytes.len()
    }

    fn ended(&self, _name: &str, _lines: u64) {}
}
