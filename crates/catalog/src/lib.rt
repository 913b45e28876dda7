// What a catalog image declares, record by record. A record and an id are named by their place, the byte with which they begin; every place is
// answered, and what lies past the end is 0. Image and place go side by side: the image is lent and any place may be asked for, so a struct of both
// would be made at each call and hold nothing of either. A place has 32 bits, and goes by `as` to an index, as no `From` takes so many bits to one.
#![tactic(auto)]

mod fields;
mod ids;
mod keyed_image;
mod keys;
mod records;

pub use fields::{dims_at, grade_at, is_commutative, is_given, op_at};
pub use ids::{blank_at, same_at};
pub use keyed_image::KeyedImage;
pub use keys::{Keys, find_by, key_at, keys_of, link_by};
pub use records::{DIMENSIONLESS, TIME, kind_count, kind_place, row_count, row_place};
