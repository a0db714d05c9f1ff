// Where the devices' registers stand in a description.
ghost use Rattle.std.specs.Prelude.{◌≡◌, eqb};
ghost use Rattle.text_names.specs.Dictionaries.{entries, number_at};
ghost use Rattle.evaluator.specs.Lent.{attached};

use devices::registers;
use devices::registers::DEVICE_REGISTERS;
use text_names::Dictionary;

// Whether the register at a place has that width.
fn has_width(d: Dictionary, place: usize, width: u64) -> bool
    ensures { result ≡ eqb (number_at d place) width }
{
    u64::from(text_names::number_of(d, place)) == width
}

// The places of the devices' registers among those of a text, if all of them are there with their widths.
pub fn attach(text: &[u8], d: Dictionary) -> Option<[usize; DEVICE_REGISTERS]>
    ensures { result ≡ attached (entries text.now d) }
{
    let mut places = [0usize; DEVICE_REGISTERS];
    for (k, place) in places.iter_mut().enumerate() {
        let register = registers::register_at(k);
        let found = text_names::place_of(text, d, register.name)?;
        if !has_width(d, found, register.width) {
            return None;
        }
        *place = found;
    }
    Some(places)
}
