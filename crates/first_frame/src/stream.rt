// The stream's bytes, from which its pictures are taken one after the other.
ghost use Rattle.std.specs.Prelude.{IfOk};
ghost use Rattle.first_frame.specs.Stream.{HasGiven, IsReady};

use crate::fault::Fault;
use access_units::{Acceptor, Next, Unsettled};
use std::alloc::Global;
use std::io::Read;

// An acceptor takes no more bytes than these.
const MOST_BYTES: usize = 1_073_741_824;

/// All bytes of standard input.
pub fn read<R: Input + AllocGlobal>(rt: &R) -> Result<Vec<u8>, Fault> {
    let mut bytes = Vec::new(rt.alloc());
    rt.reader().read_to_end(&mut bytes)?;
    Ok(bytes)
}

/// An acceptor that has all bytes of a stream.
pub fn opened(alloc: Global, bytes: &[u8]) -> Result<Acceptor, Fault>
    ensures { IfOk result IsReady }
{
    let mut acceptor = Acceptor::new(alloc);
    let count = bytes.len();
    if count == 0 || count > MOST_BYTES {
        return Err(Fault::Stream);
    }
    acceptor.feed(bytes)?;
    acceptor.feed(&[])?;
    Ok(acceptor)
}

/// The stream's next picture, which is to be settled before the one behind it is asked for.
pub fn next(acceptor: &mut Acceptor) -> Result<Unsettled, Fault>
    requires { IsReady acceptor.old }
    ensures { IfOk result (λ picture. HasGiven acceptor.new) }
{
    match acceptor.next()? {
        Next::Picture(picture) => Ok(picture),
        _ => Err(Fault::Stream),
    }
}
