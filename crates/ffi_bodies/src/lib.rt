// Chunked bodies for C and Rust. Nothing is decided here.
#![tactic(auto)]

ghost use Rattle.std.specs.Prelude.{◌≡◌, length};
ghost use Rattle.framing.specs.Reading.{decode as decoding, decode_output};
ghost use Rattle.chunk_writer.specs.Writing.{frame_writing as encoding, frame_output as encoded-output};
ghost use Rattle.ffi.specs.Fields.{body_fields, written_fields};

use ffi::{QzBody, QzWritten};

// Reads a chunked body at the front of the input and writes its data, at most `out_len` bytes of it. The output
// must not overlap the input.
#[unsafe(no_mangle)]
pub extern "C" fn qz_chunked_decode(input: &[u8], out: &mut [u8]) -> QzBody
    ensures answers { result ≡ body_fields (decoding (length out.old) input.now) }
    ensures writes { out.new ≡ decode_output input.now out.old }
{
    QzBody::from(chunked::decode(input, out))
}

// Writes a body in chunks of `chunk_len` bytes, then what remains, then the last chunk. The output must not overlap
// the body.
#[unsafe(no_mangle)]
pub extern "C" fn qz_chunked_encode(body: &[u8], chunk_len: usize, out: &mut [u8]) -> QzWritten
    ensures answers { result ≡ written_fields (encoding body.now chunk_len (length out.old)) }
    ensures writes { out.new ≡ encoded-output body.now chunk_len out.old }
{
    QzWritten::from(chunk_writer::encode(body, chunk_len, out))
}
