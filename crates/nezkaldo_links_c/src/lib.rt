// A second library for other languages: `./build nezkaldo_links` makes target/staticlib/libnezkaldo_links.a of this crate; include/nezkaldo_links.h declares
// it for C. Its call is the one of that name in crate nezkaldo_links, with its clause.
#![tactic(auto)]

ghost use Rattle.std.specs.Prelude.{◌≡◌};
ghost use Rattle.nezkaldo_links.specs.Links.{links_number};

// The links that the test of a CONG step reads where it passes; 13 · 2^32 more than that where it fails. 12 · 2^32 for a number that is no CONG step's,
// and n · 2^32 for a file whose header fails check n, of 1 to 3.
#[unsafe(no_mangle)]
pub extern "C" fn nezkaldo_links(file: &[u8], step: usize) -> u64
    ensures { result ≡ links_number file.now step }
{
    nezkaldo_links::nezkaldo_links(file, step)
}
