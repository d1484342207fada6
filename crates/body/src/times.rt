// Expiry and periods of a definition, read from its body.
ghost use Rattle.body.specs.Reading.{Reads};
ghost use Rattle.body.specs.Bodies.{pair_field, period_field, period_fields, times_fields};

use crate::Fault;
use crate::reader::BodyReader;
use store::RATES;

// Expiry and periods. `timed` is 1 where the body has them, as in a `Table`, which C holds and `DefinitionBack` compares it with.
#[derive(Clone, Copy)]
pub struct Times {
    pub timed: u32,
    pub expiry: u32,
    pub periods: [u32; RATES],
}

// The pair of rate type `t`: its number and its period.
#[tactic(auto, using(crate::proofs::times::TimesLaws::exact_read), unfolding(crate::specs::Bodies::pair_field))]
fn read_pair(r: &mut BodyReader<'_>, t: usize) -> Result<u32, Fault>
    ensures { Reads (pair_field t) r.old r.new result }
{
    r.between(t as u64, t as u64)?;
    r.word()
}

// The period of rate type `t`, if that type is present.
#[tactic(auto, unfolding(crate::specs::Bodies::period_field))]
fn read_period(r: &mut BodyReader<'_>, types: u32, t: usize) -> Result<u32, Fault>
    ensures { Reads (period_field types t) r.old r.new result }
{
    if store::types::present(types, t) {
        return read_pair(r, t);
    }
    Ok(0)
}

// The pairs of the rate types present. `read_values` has the same loop over another type of number; one function for both would take
// the field's reader as a closure, and be no plainer.
#[tactic(auto, using(crate::proofs::Filling::filling_laws))]
fn read_periods(r: &mut BodyReader<'_>, types: u32) -> Result<[u32; RATES], Fault>
    ensures { Reads (period_fields types) r.old r.new result }
{
    let mut periods = [0u32; RATES];
    for (i, place) in periods.iter_mut().enumerate() {
        *place = read_period(r, types, store::types::rate_type(i))?;
    }
    Ok(periods)
}

// Expiry and periods, unless the body ends there.
#[tactic(auto, unfolding(crate::specs::Bodies::times_fields, crate::specs::Bodies::times_there))]
pub(crate) fn read_times(r: &mut BodyReader<'_>, types: u32) -> Result<Times, Fault>
    ensures { Reads (times_fields types) r.old r.new result }
{
    if r.at == r.body.len() {
        return Ok(Times {
            timed: 0,
            expiry: 0,
            periods: [0u32; RATES],
        });
    }
    let expiry = r.word()?;
    let periods = read_periods(r, types)?;
    Ok(Times {
        timed: 1,
        expiry,
        periods,
    })
}
