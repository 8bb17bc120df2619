/// The table of the rows `key => value, mark`, as in `cases![1 => 10, 0; 2 => 20, 1]`. Each of the
/// three is a number or what is one by `as u32`.
///
/// The keys are to be different: a function that writes one key twice is not proved, and so no key
/// is compared where it runs.
#[macro_export]
macro_rules! cases {
    ($($key:expr => $value:expr, $mark:expr);* $(;)?) => {
        $crate::Cases::of_distinct([
            $($crate::Row { key: $key as u32, value: $value as u32, mark: $mark as u32 }),*
        ])
    };
}
