// Keys that no longer have a value.
ghost use Rattle.std.specs.Prelude.{◌≡◌, [], ◌∷◌};
ghost use Rattle.sc_unlink.specs.Taking.{TakesValues};

use sc_base::Key;
use sc_isa_image::Image;

/// Takes the values of these keys away. It takes no memory.
pub fn take_values(image: &mut Image, objects: &[(Key, u32)])
    ensures { TakesValues objects.now image.old image.new }
{
    for object in objects {
        take_value(image, object);
    }
}

// Takes the value of a key away, if it has one.
fn take_value(image: &mut Image, object: &(Key, u32))
    ensures { TakesValues (object.now ∷ []) image.old image.new }
{
    match image.value(&object.0) {
        Some(_) => image.take_value(&object.0),
        None => {}
    }
}
