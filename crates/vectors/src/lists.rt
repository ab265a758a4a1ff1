// The list of smaller spread, as the outside vectors write the two: each behind its length.
use crate::output;
use std::io::Stdout;

// The refusal's number, and the results that are handed back, where each list has as many results as it says.
pub fn choice(out: Stdout, numbers: &[i64]) {
    let [n, behind @ ..] = numbers else {
        return output::malformed(out);
    };
    if *n < 0 || behind.len() as u64 <= exact::magnitude(*n) {
        return output::malformed(out);
    }
    let (first, rest) = behind.split_at(exact::magnitude(*n) as usize);
    match rest {
        [m, second @ ..] if 0 <= *m && exact::magnitude(*m) == second.len() as u64 => {
            write_chosen(out, first, second);
        }
        _ => output::malformed(out),
    }
}

fn write_chosen<'a>(out: Stdout, first: &'a [i64], second: &'a [i64]) {
    let mut refusal = 0;
    let list = spread::chosen(first, second, &mut refusal);
    output::number(out, refusal);
    output::integers(out, list);
}
