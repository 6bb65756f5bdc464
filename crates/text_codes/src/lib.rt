// The Spectrum's character codes as text, the Rust's `SPECTRUM_ENCODING`: flat bytes and where each code's text begins.
#![tactic(auto)]

ghost use Rattle.std.specs.Prelude.{◌≡◌, ◌+◌, ◌-◌, ◌*◌, ◌^◌, ◌≤◌, ◌<◌, length, take, drop, get_or};
ghost use Rattle.text_out.specs.Writes.{Writes};
ghost use Rattle.text_codes.specs.Encoding.{table, encoded, spelled, flat_texts, offsets};

use text_out::{Spelling, Writer};

// The texts of all codes, one after the other; not an array of 256 slices: of those the proof does not end (antt's step limit).
const FLAT: [u8; 534] =
    *b" !\"#$%&'()*+,-./0123456789:;<=>?@ABCDEFGHIJKLMNOPQRSTUVWXYZ[\\]\xE2\x86\x91_\xC2\xA3abcdefghijklmnopqrstuvwxyz{|}~\xC2\xA9 \
    \xE2\x96\x9D\xE2\x96\x98\
    \xE2\x96\x80\xE2\x96\x97\xE2\x96\x90\xE2\x96\x9A\xE2\x96\x9C\xE2\x96\x96\xE2\x96\x9E\xE2\x96\x8C\xE2\x96\x9B\
    \xE2\x96\x84\xE2\x96\x9F\xE2\x96\x99\
    \xE2\x96\x88ABCDEFGHIJKLMNOPQRSTURNDINKEY$PIFNPOINTSCREEN$ATTRATTABVAL$CODEVALLENSINCOSTANASNACSATNLNEXPINTSQRSGNABSPEEKINUSRSTR$\
    CHR$NOTBINORAND<=>=<>\
    LINETHENTOSTEPDEF FNCATFORMATMOVEERASEOPEN #CLOSE #MERGEVERIFYBEEPCIRCLEINKPAPERFLASHBRIGHTINVERSEOVEROUTLPRINTLLISTSTOPREADDATA\
    RESTORENEWBORDER\
    CONTINUEDIMREMFORGO TOGO SUBINPUTLOADLISTLETPAUSENEXTPOKEPRINTPLOTRUNSAVERANDOMIZEIFCLSDRAWCLEARRETURNCOPY";

// Where each code's text begins, and where the last one ends.
const STARTS: [u16; 257] = [
    0, 0, 0, 0, 0, 0, 0, 0, 0, 0, 0, 0, 0, 0, 0, 0, 0, 0, 0, 0, 0, 0, 0, 0, 0, 0, 0, 0, 0, 0, 0, 0,
    0, 1, 2, 3, 4, 5, 6, 7, 8, 9, 10, 11, 12, 13, 14, 15, 16, 17, 18, 19, 20, 21, 22, 23, 24, 25,
    26, 27, 28, 29, 30, 31, 32, 33, 34, 35, 36, 37, 38, 39, 40, 41, 42, 43, 44, 45, 46, 47, 48, 49,
    50, 51, 52, 53, 54, 55, 56, 57, 58, 59, 60, 61, 62, 65, 66, 68, 69, 70, 71, 72, 73, 74, 75, 76,
    77, 78, 79, 80, 81, 82, 83, 84, 85, 86, 87, 88, 89, 90, 91, 92, 93, 94, 95, 96, 97, 98, 100,
    101, 104, 107, 110, 113, 116, 119, 122, 125, 128, 131, 134, 137, 140, 143, 146, 147, 148, 149,
    150, 151, 152, 153, 154, 155, 156, 157, 158, 159, 160, 161, 162, 163, 164, 165, 166, 167, 170,
    176, 178, 180, 185, 192, 196, 198, 201, 205, 209, 212, 215, 218, 221, 224, 227, 230, 233, 235,
    238, 241, 244, 247, 250, 254, 256, 259, 263, 267, 270, 273, 275, 278, 280, 282, 284, 288, 292,
    294, 298, 304, 307, 313, 317, 322, 328, 335, 340, 346, 350, 356, 359, 364, 369, 375, 382, 386,
    389, 395, 400, 404, 408, 412, 419, 422, 428, 436, 439, 442, 445, 450, 456, 461, 465, 469, 472,
    477, 481, 485, 490, 494, 497, 501, 510, 512, 515, 519, 524, 530, 534,
];

// Where the text of code k begins.
#[tactic(auto, unfolding(crate::specs::Encoding::table, crate::specs::Encoding::offsets))]
fn start_of(k: usize) -> usize
    requires { k < 257 }
    ensures { result ≡ get_or (offsets 0 table) k 0 }
{
    usize::from(STARTS[k])
}

// The texts' bytes from a up to e.
fn put_part(w: &mut Writer<'_>, a: usize, e: usize)
    requires { (a ≤ e) × (e ≤ length (flat_texts table)) × (w.old.at + (e - a) ≤ 2 ^ 63) }
    ensures { Writes w.old (take (e - a) (drop a (flat_texts table))) w.new }
{
    w.bytes(&FLAT[a..e]);
}

// A code as its text.
pub struct Code;

impl Spelling for Code {
    ghost text = { encoded };

    ghost most = { 9 };

    fn put(w: &mut Writer<'_>, code: u8) {
        let k = usize::from(code);
        let a = start_of(k);
        let e = start_of(k + 1);
        put_part(w, a, e);
    }
}

// The texts of codes, one after the other; the Rust's `string_from_zx`; our crates alone call it.
pub fn put_spelled(w: &mut Writer<'_>, s: &[u8])
    requires { w.old.at + 9 * length s.now ≤ 2 ^ 63 }
    ensures { Writes w.old (spelled s.now) w.new }
{
    w.each::<Code>(s);
}
