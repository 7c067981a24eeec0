//! Why definitions are refused, in the words of the cases.
use case_files::Printer;
use runtime_defs::DefsFault;

/// Puts a fault with its token index, as `WrongRow@3`.
fn put_at(rule: &str, at: u32, given: &mut Printer) {
    given.put(rule);
    given.put("@");
    given.put_number(u64::from(at));
}

/// Puts the first fault, as `TwoDefaults@7` or `NoDefault 2`, or `limit 8193`.
pub fn put_fault(fault: DefsFault, given: &mut Printer) {
    match fault {
        DefsFault::UnknownFunction(at) => put_at("UnknownFunction", at, given),
        DefsFault::WrongRow(at) => put_at("WrongRow", at, given),
        DefsFault::TwoDefaults(at) => put_at("TwoDefaults", at, given),
        DefsFault::GuardRows(at) => put_at("GuardRows", at, given),
        DefsFault::ForkRows(at) => put_at("ForkRows", at, given),
        DefsFault::NoDefault(function) => {
            given.put("NoDefault ");
            given.put_number(u64::from(function));
        }
        DefsFault::Limit(count) => {
            given.put("limit ");
            given.put_number(count);
        }
        DefsFault::NoMemory => given.lose(),
    }
}
