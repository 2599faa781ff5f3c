// Tells the domain on which the rows would stand: a coset at the second prime, where their number is a power of two.
use cosets::{Coset, arith};
use domain::powers;
use domain::traits::Points;
use field::traits::PrimeField;
use pair::Pair;
use residue::moduli::BabyBear;

type Turn = Coset<BabyBear, Pair<BabyBear>>;

pub(crate) fn tell_domain(rt: &HostRuntime, rows: &[u32]) -> anyhow::Result<()> {
    let Some(bits) = powers::log_within(6, rows.len()) else {
        println!(rt; "no domain: the number of rows is not a power of two up to 64")?;
        return Ok(());
    };
    let found: Option<Turn> = arith::natural(bits);
    if let Some(domain) = found {
        tell_points(rt, domain)?;
    }
    Ok(())
}

fn tell_points(rt: &HostRuntime, domain: Turn) -> anyhow::Result<()> {
    let size = domain.size();
    print!(rt;
        "domain: coset of {size} points modulo {}, the first",
        BabyBear::order()
    )?;
    // By number: a domain computes its points and holds none.
    for i in 0..size.min(4) {
        print!(rt; " {}", domain.point(i))?;
    }
    println!(rt; "")?;
    Ok(())
}
