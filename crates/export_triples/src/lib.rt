// The exported calls on a palette as triples: 0 or the number of a refusal, which leaves the lent bytes.
#![tactic(auto)]

ghost use Rattle.std.specs.Prelude.{◌≡◌, length, flat_map};
ghost use Rattle.ilbm_spec.specs.Triples.{triples_by, triples_of};
ghost use Rattle.export_triples.specs.Call.{joined, room_number, bytes_after, triples_call};

// Writes all triples into the lent bytes, if there is room: 0 or 32, a number since C is told one.
fn put(all: [[u8; 3]; 64], lent: &mut [u8]) -> usize
    requires three_each { flat_map (λ t. t) all ≡ joined all }
    ensures number { result ≡ room_number (length lent.old) }
    ensures bytes { lent.new ≡ bytes_after result all lent.old }
{
    if lent.len() < 192 {
        return 32;
    }
    lent[..192].copy_from_slice(all.as_flattened());
    0
}

// The palette of a picture as 64 triples, in the first 192 of the lent bytes.
#[unsafe(no_mangle)]
pub extern "C" fn ilbm_triples<'a>(
    file: &'a [u8],
    picture: usize,
    default: &'a [u8],
    triples: &mut [u8],
    place: &mut usize,
) -> usize
    ensures { record { number = result; place = place.new; bytes = triples.new }
        ≡ triples_call (triples_of file.now picture default.now) triples.old }
{
    let all = ilbm_triples::triples(file, picture, default);
    match all.refusal {
        None => {
            *place = 0;
            put(all.triples, triples)
        }
        Some(r) => {
            *place = r.place;
            r.reason.number()
        }
    }
}

// Any palette as 64 triples, by the planes and the number that CAMG holds.
#[unsafe(no_mangle)]
pub extern "C" fn ilbm_palette_triples(
    palette: &[u8],
    planes: u8,
    mode: u32,
    triples: &mut [u8],
) -> usize
    ensures number { result ≡ room_number (length triples.old) }
    ensures bytes { triples.new ≡ bytes_after result (triples_by mode planes palette.now) triples.old }
{
    let all = ilbm_triples::palette_triples(palette, planes, mode);
    put(all, triples)
}
