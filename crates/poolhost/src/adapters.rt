//! The streams and files of the system, as the host's source, sink and shelf. They count each failure but want of memory,
//! and tell nothing of what a stream or a file holds.

ghost use Rattle.std.specs.Prelude.{◌≡◌, ◌≤◌, ◌↔◌, Some, IsNone, IfOk, vec_len};
ghost use Rattle.std.specs.IoError.{error_kind};
ghost use Rattle.rm_base.specs.declared.limits.TheConstants.{FILE_MOST};
ghost use Rattle.poolhost.specs.Missing.{IsOfNoFile};

use rm_base::limits::{FILE_MOST, PIECE_MOST};
use rm_outside::outside::Outside;
use rm_outside::shelf::{Shelf, ShelfError};
use rm_outside::sink::Sink;
use rm_outside::source::Source;
use std::alloc::Global;
use std::fs::{File, Files};
use std::io::{Error, ErrorKind, Read, Write};

/// What an error of a stream means for the host. It means nothing where the call was interrupted, and is to be tried again.
fn outside_of(error: &Error) -> Option<Outside>
    ensures interrupted { IsNone result ↔ (error_kind error.now ≡ ErrorKind.Interrupted) }
    ensures memory { (result ≡ Some Outside.Memory) ↔ (error_kind error.now ≡ ErrorKind.OutOfMemory) }
{
    match error.kind() {
        ErrorKind::Interrupted => None,
        ErrorKind::OutOfMemory => Some(Outside::Memory),
        _ => Some(Outside::Failed),
    }
}

/// A reader as a source. A read that was interrupted is tried again.
#[derive(Drop)]
pub struct ReaderSource<R: Read + Drop> {
    reader: R,
    faults: u64,
}

impl<R: Read + Drop> ReaderSource<R> {
    pub fn new(reader: R) -> ReaderSource<R> {
        ReaderSource { reader, faults: 0 }
    }
}

impl<R: Read + Drop> Source for ReaderSource<R> {
    ghost use Rattle.std.specs.Prelude.{None};

    ghost faults = { λ s. s.faults };

    ghost left = { λ _. None };

    fn faults(&self) -> u64 {
        self.faults
    }

    fn read(&mut self, into: &mut [u8]) -> Result<usize, Outside> {
        if into.is_empty() {
            return Ok(0);
        }
        for _ in 0..u64::MAX {
            match self.reader.read(into) {
                Ok(count) => return Ok(count),
                Err(error) => match outside_of(&error) {
                    None => {}
                    Some(Outside::Memory) => return Err(Outside::Memory),
                    Some(Outside::Failed) => break,
                },
            }
        }
        self.faults = self.faults.saturating_add(1);
        Err(Outside::Failed)
    }
}

/// A writer as a sink. A write that was interrupted is tried again, and one that takes nothing is a failure.
#[derive(Drop)]
pub struct WriterSink<W: Write + Drop> {
    writer: W,
    faults: u64,
}

impl<W: Write + Drop> WriterSink<W> {
    pub fn new(writer: W) -> WriterSink<W> {
        WriterSink { writer, faults: 0 }
    }
}

impl<W: Write + Drop> Sink for WriterSink<W> {
    ghost use Rattle.std.specs.Prelude.{None};

    ghost faults = { λ s. s.faults };

    ghost written = { λ _. None };

    fn faults(&self) -> u64 {
        self.faults
    }

    fn write(&mut self, bytes: &[u8]) -> Result<usize, Outside> {
        if bytes.is_empty() {
            return Ok(0);
        }
        for _ in 0..u64::MAX {
            match self.writer.write(bytes) {
                Ok(0) => break,
                Ok(count) => return Ok(count),
                Err(error) => match outside_of(&error) {
                    None => {}
                    Some(Outside::Memory) => return Err(Outside::Memory),
                    Some(Outside::Failed) => break,
                },
            }
        }
        self.faults = self.faults.saturating_add(1);
        Err(Outside::Failed)
    }
}

/// The files of the system as a shelf. A path is read from where the program runs.
#[derive(Drop)]
pub struct FileShelf<'a, F: Files> {
    files: &'a F,
    faults: u64,
}

impl<'a, F: Files> FileShelf<'a, F> {
    pub fn new(files: &'a F) -> FileShelf<'a, F> {
        FileShelf { files, faults: 0 }
    }
}

impl<'a, F: Files> Shelf for FileShelf<'a, F> {
    ghost use Rattle.std.specs.Prelude.{None};

    ghost faults = { λ s. s.faults };

    ghost files = { λ _. None };

    fn faults(&self) -> u64 {
        self.faults
    }

    fn load(&mut self, alloc: Global, path: &str) -> Result<Vec<u8>, ShelfError> {
        match read_file(self.files, alloc, path) {
            Ok(bytes) => Ok(bytes),
            Err(ShelfError::Failed) => {
                self.faults = self.faults.saturating_add(1);
                Err(ShelfError::Failed)
            }
            Err(ShelfError::Missing) => Err(ShelfError::Missing),
            Err(ShelfError::TooLong) => Err(ShelfError::TooLong),
            Err(ShelfError::Memory) => Err(ShelfError::Memory),
        }
    }
}

/// What an error of opening a file means for the host. No file has a path that is not found, that leads through a file,
/// that no name of a file may have, or that is too long for one.
fn shelf_error(error: &Error) -> ShelfError
    ensures missing { (result ≡ ShelfError.Missing) ↔ IsOfNoFile (error_kind error.now) }
    ensures memory { (result ≡ ShelfError.Memory) ↔ (error_kind error.now ≡ ErrorKind.OutOfMemory) }
{
    match error.kind() {
        ErrorKind::NotFound => ShelfError::Missing,
        ErrorKind::NotADirectory => ShelfError::Missing,
        ErrorKind::InvalidInput => ShelfError::Missing,
        ErrorKind::InvalidFilename => ShelfError::Missing,
        ErrorKind::OutOfMemory => ShelfError::Memory,
        _ => ShelfError::Failed,
    }
}

/// The bytes of the file at a path.
fn read_file<F: Files>(files: &F, alloc: Global, path: &str) -> Result<Vec<u8>, ShelfError>
    ensures { IfOk result (λ bytes. vec_len bytes ≤ FILE_MOST) }
{
    match File::open(files, path) {
        Ok(file) => read_whole(alloc, file),
        Err(error) => Err(shelf_error(&error)),
    }
}

/// The bytes that a reader gives up to its end, of a file at most.
fn read_whole<R: Read + Drop>(alloc: Global, reader: R) -> Result<Vec<u8>, ShelfError>
    ensures { IfOk result (λ bytes. vec_len bytes ≤ FILE_MOST) }
{
    let mut source = ReaderSource::new(reader);
    let mut bytes = Vec::new(alloc);
    let mut piece = [0; PIECE_MOST];
    while bytes.len() <= FILE_MOST {
        let most = PIECE_MOST.min(FILE_MOST + 1 - bytes.len());
        let count = match source.read(&mut piece[..most]) {
            Ok(count) => count,
            Err(Outside::Failed) => return Err(ShelfError::Failed),
            Err(Outside::Memory) => return Err(ShelfError::Memory),
        };
        if count == 0 {
            return Ok(bytes);
        }
        bytes.extend_from_slice(&piece[..count])?;
    }
    Err(ShelfError::TooLong)
}

#[cfg(test)]
mod tests {
    use super::{FileShelf, ReaderSource, WriterSink, read_whole};
    use rm_outside::outside::Outside;
    use rm_outside::shelf::{Shelf, ShelfError};
    use rm_outside::sink::Sink;
    use rm_outside::source::Source;
    use std::test::Fail;
    use std::{fs, io};

    /// A stream of which each call fails so.
    #[derive(Drop)]
    struct Broken(io::ErrorKind);

    impl io::Read for Broken {
        fn read(&mut self, _into: &mut [u8]) -> io::Result<usize> {
            Err(io::Error::from(self.0))
        }
    }

    impl io::Write for Broken {
        fn write(&mut self, _bytes: &[u8]) -> io::Result<usize> {
            Err(io::Error::from(self.0))
        }

        fn flush(&mut self) -> io::Result<()> {
            Ok(())
        }
    }

    #[test]
    fn adapts_a_reader(rt: HostRuntime) -> Result<(), Fail> {
        let mut into = [0; 4];
        let mut good = ReaderSource::new(b"ab".as_slice());
        assert_eq!(rt; good.read(&mut into), Ok(2));
        assert_eq!(rt; &into[..2], b"ab".as_slice());
        assert_eq!(rt; good.read(&mut into), Ok(0));
        assert_eq!(rt; good.faults(), 0);
        let mut broken = ReaderSource::new(Broken(io::ErrorKind::BrokenPipe));
        assert_eq!(rt; broken.read(&mut into), Err(Outside::Failed));
        assert_eq!(rt; broken.faults(), 1);
        let mut wanting = ReaderSource::new(Broken(io::ErrorKind::OutOfMemory));
        assert_eq!(rt; wanting.read(&mut into), Err(Outside::Memory));
        assert_eq!(rt; wanting.faults(), 0);
        Ok(())
    }

    /// Paths that no file has while `shelf.csv` is a file: of no name, through a file, empty, and of a name with a NUL.
    static NOWHERE: [&str; 4] = ["none.csv", "shelf.csv/in.csv", "", "a\0b.csv"];

    #[test]
    fn adapts_files(rt: HostRuntime) -> Result<(), Fail> {
        fs::write(&rt, "shelf.csv", b"n:int\n1\n")?;
        fs::create_dir(&rt, "shelf.dir")?;
        let mut shelf = FileShelf::new(&rt);
        let bytes = shelf.load(rt.alloc(), "shelf.csv").expect(&rt, "a file");
        assert_eq!(rt; bytes.as_slice(), b"n:int\n1\n".as_slice());
        for path in NOWHERE {
            let answer = shelf.load(rt.alloc(), path).err();
            assert_eq!(rt; answer, Some(ShelfError::Missing), "{path:?}");
        }
        assert_eq!(rt; shelf.faults(), 0);
        assert_eq!(rt;
            shelf.load(rt.alloc(), "shelf.dir").err(),
            Some(ShelfError::Failed)
        );
        assert_eq!(rt; shelf.faults(), 1);
        fs::remove_dir(&rt, "shelf.dir")?;
        fs::remove_file(&rt, "shelf.csv")?;
        assert_eq!(rt;
            read_whole(rt.alloc(), io::repeat(b'a')).err(),
            Some(ShelfError::TooLong)
        );
        Ok(())
    }

    #[test]
    fn adapts_a_writer(rt: HostRuntime) -> Result<(), Fail> {
        let mut good = WriterSink::new(Vec::new(rt.alloc()));
        assert_eq!(rt; good.write(b"ab"), Ok(2));
        assert_eq!(rt; good.faults(), 0);
        let mut broken = WriterSink::new(Broken(io::ErrorKind::BrokenPipe));
        assert_eq!(rt; broken.write(b"ab"), Err(Outside::Failed));
        assert_eq!(rt; broken.write(b""), Ok(0));
        assert_eq!(rt; broken.faults(), 1);
        let mut wanting = WriterSink::new(Broken(io::ErrorKind::OutOfMemory));
        assert_eq!(rt; wanting.write(b"ab"), Err(Outside::Memory));
        assert_eq!(rt; wanting.faults(), 0);
        Ok(())
    }
}
