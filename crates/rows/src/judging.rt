// What a judge says of a claim that a walk has found.
ghost use Rattle.std.specs.Prelude.{◌≡◌};
ghost use Rattle.rows.specs.Places.{seen, row_at};

use crate::Area;
use crate::place::Place;
use judge::judge::Judge;
use runs::report::Row;
use written::payload::{ROOM, payload};

// The judge is asked for the claim's tag, its payload in shortest form, and the message in the area.
pub(crate) fn row_at<J: Judge>(judge: &J, place: Place, work: &Area) -> Row
    ensures { result ≡ row_at (J.meaning judge.now) (seen place.entry work.now) }
{
    let mut room = [0u8; ROOM];
    let tag = place.attestation.tag();
    let payload = payload(place.attestation, &mut room);
    let verdict = judge.verdict(&tag, payload, &work[0..place.size]);
    Row {
        tag,
        operations: place.operations,
        verdict,
    }
}
