//! Programs that run until their units are used up.

// A loop of arithmetic.
const ARITHMETIC: &str = "
int main(void) {
    int a, b, c;
    a = 1;
    b = 2;
    while (1) {
        c = a * 3 + b;
        a = c % 1009;
        b = (a ^ b) & 255;
    }
}
";

// Loops over an array with comparisons: it is sorted, then filled anew.
const ARRAY: &str = "
int a[64];
int main(void) {
    int i, j, held, seed;
    seed = 1;
    while (1) {
        for (i = 0; i < 64; i++) {
            seed = (seed * 75 + 74) % 65537;
            a[i] = seed;
        }
        for (i = 1; i < 64; i++) {
            held = a[i];
            for (j = i; j > 0 && a[j - 1] > held; j--)
                a[j] = a[j - 1];
            a[j] = held;
        }
        for (i = 1; i < 64; i++)
            if (a[i - 1] > a[i])
                return 1;
    }
}
";

// Nested calls.
const CALLS: &str = "
int sum(int x, int y) {
    return x + y;
}
int twice(int x) {
    return sum(x, x);
}
int main(void) {
    int n;
    n = 1;
    while (1) {
        n = sum(twice(n), 1);
        if (n > 1000)
            n = n % 1000;
    }
}
";

// A `for` with `if` and `break`: whether numbers are prime.
const PRIMES: &str = "
int main(void) {
    int n, i, primes;
    primes = 0;
    for (n = 2; 1; n++) {
        for (i = 2; i < n; i++)
            if (n % i == 0)
                break;
        if (i == n)
            primes++;
        if (n == 100 && primes != 25)
            return 1;
    }
}
";

// A loop that counts.
const COUNTING: &str = "
int main(void) {
    int i;
    i = 0;
    while (i < 2000000000) {
        i = i + 1;
    }
    return 1;
}
";

/// The program of that name.
pub fn source(job: &str) -> Option<&'static str> {
    match job {
        "arithmetic" => Some(ARITHMETIC),
        "array" => Some(ARRAY),
        "calls" => Some(CALLS),
        "counting" => Some(COUNTING),
        "primes" => Some(PRIMES),
        _ => None,
    }
}
