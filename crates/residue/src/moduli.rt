// The two moduli in use.
ghost use Rattle.residue.specs.Moduli.{seventeen_prime, babybear_prime};

use crate::{Modulus, Residue};

pub type Seventeen = Residue<17>;

// 15 * 2^27 + 1
pub type BabyBear = Residue<2013265921>;

impl Modulus<17> for Residue<17> {
    ghost prime = { seventeen_prime };
}

impl Modulus<2013265921> for Residue<2013265921> {
    ghost prime = { babybear_prime };
}
