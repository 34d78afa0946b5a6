//! What the clauses of `object_values` do not say: seeds as others reckon them, and pairs that are taken out in their hundreds.

use object_values::{Pairs, Seed, Value};
use std::alloc::{AllocError, Global};
use std::test::Fail;

// What SipHash-1-3 with keys of 0 makes of the seed before, of how many bytes come, and of them. Before the first bytes it is 0.
const SEEDS: [(&str, &str, &str); 4] = [
    ("", "", "Seed { number: 11128191277372385214 }"),
    ("job", "", "Seed { number: 10332238823370854489 }"),
    ("painless", "", "Seed { number: 487368795678314627 }"),
    ("job", "line", "Seed { number: 12369157553121266949 }"),
];

#[test]
fn seeds(rt: HostRuntime) -> Result<(), Fail> {
    let alloc = rt.alloc();
    for (job, line, text) in &SEEDS {
        let seed = Seed::of(job.as_bytes()).with(line.as_bytes());
        let found = format!(in alloc; "{seed:?}")?;
        assert!(rt; found.as_str() == *text);
    }
    assert!(rt; Seed::of(b"jobs") != Seed::of(b"jobt"));
    Ok(())
}

#[derive(Clone, Copy)]
enum Step {
    /// Puts so many keys that are new.
    Put(u32),
    /// Takes so many pairs from the front.
    Front(u32),
    /// Walks from a place to the end, and takes out every second pair.
    Second(usize),
    /// Takes out so many keys that lie far apart.
    Keys(usize),
    /// Sets the values of all keys anew.
    Set(i32),
    /// Puts so many new keys at once.
    Append(u32),
}

const STEPS: [Step; 20] = [
    Step::Put(300),
    Step::Front(120),
    Step::Put(40),
    Step::Front(150),
    Step::Set(1),
    Step::Put(200),
    Step::Front(100),
    Step::Keys(40),
    Step::Second(0),
    Step::Put(400),
    Step::Second(90),
    Step::Keys(150),
    Step::Set(2),
    Step::Append(60),
    Step::Front(90),
    Step::Put(3),
    Step::Front(30),
    Step::Append(5),
    Step::Second(2),
    Step::Front(20),
];

// The pairs, and the list that they are to be: ints with ints as their values.
#[derive(Drop)]
struct Both {
    pairs: Pairs,
    list: Vec<(i32, i32)>,
    next: i32,
}

fn is_int(value: Option<&Value>, number: i32) -> bool {
    match value {
        Some(Value::Int(found)) => *found == number,
        _ => false,
    }
}

fn put_new(both: &mut Both, count: u32) -> Result<bool, AllocError> {
    for _turn in 0..count {
        let key = both.next;
        both.next = key.wrapping_add(1);
        both.list.push((key, 7))?;
        let before = both.pairs.put(Value::Int(key), Value::Int(7))?;
        if before.is_some() {
            return Ok(false);
        }
    }
    Ok(true)
}

fn append_new(alloc: Global, both: &mut Both, count: u32) -> Result<bool, AllocError> {
    let mut more = Pairs::new(alloc, Seed::of(b"more"));
    for _turn in 0..count {
        let key = both.next;
        both.next = key.wrapping_add(1);
        both.list.push((key, 9))?;
        more.put(Value::Int(key), Value::Int(9))?;
    }
    both.pairs.append(more)?;
    Ok(true)
}

fn set_all(both: &mut Both, number: i32) -> Result<bool, AllocError> {
    for at in 0..both.list.len() {
        if let Some(pair) = both.list.get_mut(at) {
            let (key, value) = *pair;
            *pair = (key, number);
            let before = both.pairs.put(Value::Int(key), Value::Int(number))?;
            if !is_int(before.as_ref(), value) {
                return Ok(false);
            }
        }
    }
    Ok(true)
}

fn takes_place(both: &mut Both, at: usize) -> bool {
    let found = both.pairs.remove(at);
    if at >= both.list.len() {
        return found.is_none();
    }
    let (key, value) = both.list.remove(at);
    match &found {
        Some((first, second)) => is_int(Some(first), key) && is_int(Some(second), value),
        None => false,
    }
}

fn takes_key(both: &mut Both, at: usize) -> bool {
    if at >= both.list.len() {
        return true;
    }
    let (key, value) = both.list.remove(at);
    let key = Value::Int(key);
    let found = both.pairs.cut(&key);
    is_int(found.as_ref(), value) && both.pairs.cut(&key).is_none()
}

fn takes(alloc: Global, both: &mut Both, step: Step) -> Result<bool, AllocError> {
    let mut is_right = true;
    match step {
        Step::Put(count) => return put_new(both, count),
        Step::Set(number) => return set_all(both, number),
        Step::Append(count) => return append_new(alloc, both, count),
        Step::Front(count) => {
            for _turn in 0..count {
                is_right &= takes_place(both, 0);
            }
        }
        Step::Second(from) => {
            for at in from..both.list.len() {
                is_right &= takes_place(both, at);
            }
        }
        Step::Keys(count) => {
            for turn in 0..count {
                is_right &= takes_key(both, turn.wrapping_mul(7919) % 211);
            }
        }
    }
    Ok(is_right)
}

fn are_same(both: &Both) -> bool {
    if both.pairs.len() != both.list.len() {
        return false;
    }
    for (at, (key, value)) in both.list.iter().enumerate() {
        let key_there = is_int(both.pairs.key_at(at), *key);
        let value_there = is_int(both.pairs.value_at(at), *value);
        let found = is_int(both.pairs.get(&Value::Int(*key)), *value);
        if !(key_there && value_there && found) {
            return false;
        }
    }
    true
}

#[test]
fn pairs_taken_out(rt: HostRuntime) -> Result<(), Fail> {
    let alloc = rt.alloc();
    let mut both = Both {
        pairs: Pairs::new(alloc, Seed::of(b"steps")),
        list: Vec::new(alloc),
        next: 0,
    };
    for step in &STEPS {
        let is_right = takes(alloc, &mut both, *step)?;
        assert!(rt; is_right);
        let is_right = are_same(&both);
        assert!(rt; is_right);
    }
    // What is left goes into other pairs.
    let Both { pairs, list, next } = both;
    let mut copy = Both {
        pairs: Pairs::new(alloc, Seed::of(b"copy")),
        list,
        next,
    };
    copy.pairs.append(pairs)?;
    let is_right = are_same(&copy);
    assert!(rt; is_right);
    Ok(())
}
