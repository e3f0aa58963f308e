// The messages of one call, written one after the other into a lent slice, each with its digest under a message key.
ghost use Rattle.std.specs.Prelude.{◌≡◌, ◌+◌, ◌≤◌, length};
ghost use Rattle.std.proofs.lemmas.List.Edits.{sets};
ghost use Rattle.key_traffic.specs.Octets.{overlay};
ghost use Rattle.modem_calls.specs.Messages.{request_fields_of, request_octets, out_octets, RequestFits, OutFits};

use message_rules::fields::{Fields, no_descriptors, no_params};
use message_writer::write::write;
use modem_steps::state::Out;
use modem_tek::parts::Request;

fn request_fields(r: Request) -> Fields
    ensures { result ≡ request_fields_of r }
{
    Fields {
        code: r.code,
        identifier: r.identifier,
        ak: r.ak,
        said: r.said,
        life: 0,
        error: 0,
        count: 0,
        descriptors: no_descriptors(),
        older: no_params(),
        newer: no_params(),
    }
}

// One message at `at`; the place after it is handed back.
fn put_request(r: Request, key: &[u8], out: &mut [u8], at: usize) -> usize
    requires { RequestFits r × (length key.now ≡ 20) × (at + 36 ≤ length out.old) }
    ensures { (out.new ≡ sets out.old at (request_octets key.now r)) × ((result ≡ at + length (request_octets key.now r)) × (result ≤ at + 36)) }
{
    let count = write(request_fields(r), b"", key, &mut out[at..]).unwrap_or(0);
    at + count
}

// All of them, from the front; how many octets there are is handed back.
pub fn put_out(o: Out, key: &[u8], out: &mut [u8]) -> usize
    requires { OutFits o 6 × (length key.now ≡ 20) × (216 ≤ length out.old) }
    ensures { (out.new ≡ overlay out.old (out_octets key.now o)) × (result ≡ length (out_octets key.now o)) }
{
    let mut at = 0;
    for r in &o.sent[..o.count] {
        at = put_request(*r, key, out, at);
    }
    at
}
