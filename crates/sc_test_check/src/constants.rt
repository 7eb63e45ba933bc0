// Constant expressions and enumerations (ANSI 3.1.3, 3.2.1, 3.4, 3.5.2.2).

/// A line for each: the text, and what the checker answers.
pub const CONSTANTS: &str = "int a[-1 < 2147483647 ? 1 : -1]; => taken
int a[-1 < 2147483648 ? 1 : -1]; => X7 1
int a[-1 < 4294967295 ? 1 : -1]; => X7 1
int a[-1 < 0x7fffffff ? 1 : -1]; => taken
int a[-1 < 0x80000000 ? 1 : -1]; => X7 1
int a[-1 < 017777777777 ? 1 : -1]; => taken
int a[-1 < 020000000000 ? 1 : -1]; => X7 1
int a[-1 < 1u ? 1 : -1]; => X7 1
int a[-1 < 1l ? 1 : -1]; => taken
int a[-1 < 2147483648l ? 1 : -1]; => X7 1
int a[-1 < 1ul ? 1 : -1]; => X7 1
int a[-1L < 1u ? 1 : -1]; => X7 1
int a[-1 < (int)sizeof(int) ? 1 : -1]; => taken
int a[-1 < sizeof(int) ? 1 : -1]; => X7 1
struct s { int m; int n; }; int a[-1 < __offsetof(struct s, n) ? 1 : -1]; => X7 1
int a[1u - 2 > 0 ? 1 : -1]; => taken
int a[1L - 2 < 0 ? 1 : -1]; => taken
int a[(unsigned short)1 - 2 < 0 ? 1 : -1]; => taken
int a[(char)1 - 2 < 0 ? 1 : -1]; => taken
int a[-(char)1 < 0 ? 1 : -1]; => taken
int a[~(unsigned char)0 < 0 ? 1 : -1]; => taken
int a[(1 ? -1 : 0u) > 0 ? 1 : -1]; => taken
int a[(char)-1 > 0 ? 1 : -1]; => taken
int a[(char)-1 == 255 ? 1 : -1]; => taken
int a[(signed char)-1 < 0 ? 1 : -1]; => taken
int a[(signed char)128 == -128 ? 1 : -1]; => taken
int a[(unsigned char)-1 == 255 ? 1 : -1]; => taken
int a[(short)65535 == -1 ? 1 : -1]; => taken
int a[(unsigned short)-1 == 65535 ? 1 : -1]; => taken
int a[(char)300 == 44 ? 1 : -1]; => taken
int a[(int)4294967295 == -1 ? 1 : -1]; => taken
int a[(int)(char)300 == 44 ? 1 : -1]; => taken
int a['\\377' == 255 ? 1 : -1]; => taken
int a['a' == 97 && '\\n' == 10 && '\\0' == 0 ? 1 : -1]; => taken
int a['\\a' == 7 && '\\b' == 8 && '\\f' == 12 && '\\r' == 13 ? 1 : -1]; => taken
int a['\\t' == 9 && '\\v' == 11 && '\\\\' == 92 && '\\'' == 39 ? 1 : -1]; => taken
int a['\\\"' == 34 && '\\?' == 63 && '\"' == 34 && '\\x7f' == 127 ? 1 : -1]; => taken
int a[sizeof 'a' == 4 ? 1 : -1]; => taken
int a[sizeof \"abc\" == 4 && sizeof \"\" == 1 ? 1 : -1]; => taken
int a[sizeof \"ab\" \"cd\" == 5 && sizeof \"a\\0b\" == 4 ? 1 : -1]; => taken
int a[sizeof(char) == 1 && sizeof(short) == 2 && sizeof(int) == 4 ? 1 : -1]; => taken
int a[sizeof(long) == 4 && sizeof(int *) == 4 && sizeof(enum { A }) == 4 ? 1 : -1]; => taken
int a[sizeof(int[3]) == 12 && sizeof(char[2][3]) == 6 ? 1 : -1]; => taken
int a[sizeof(struct { char a; int b; char c; }) == 12 ? 1 : -1]; => taken
int a[sizeof(struct { char a; short b; char c; }) == 6 ? 1 : -1]; => taken
int a[sizeof(struct { char a[3]; }) == 3 ? 1 : -1]; => taken
struct s { char a; struct { short b; char c; } d; }; int a[sizeof(struct s) == 6 ? 1 : -1]; => taken
struct s { char a; short b; int c; }; int a[__offsetof(struct s, b) == 2 && __offsetof(struct s, c) == 4 ? 1 : -1]; => taken
char c; int a[sizeof(c + c) == 4 && sizeof c == 1 && sizeof +c == 4 ? 1 : -1]; => taken
char c; int a[sizeof(c, c) == 1 && sizeof(c = 1) == 1 && sizeof c++ == 1 ? 1 : -1]; => taken
int a[-7 / 2 == -3 && -7 % 2 == -1 && 7 / -2 == -3 && 7 % -2 == 1 ? 1 : -1]; => taken
int a[-1 >> 1 == -1 && -8 >> 1 == -4 ? 1 : -1]; => taken
int a[4294967295u >> 31 == 1 ? 1 : -1]; => taken
int a[1 << 31 < 0 && -1 << 1 == -2 ? 1 : -1]; => taken
int a[(5 & 3) == 1 && (5 | 3) == 7 && (5 ^ 3) == 6 ? 1 : -1]; => taken
int a[4294967295u + 1 == 0 && 0u - 1 == 4294967295u ? 1 : -1]; => taken
int a[65536u * 65536u == 0 ? 1 : -1]; => taken
int a[!0 == 1 && !7 == 0 && ~0 == -1 && +3 == 3 ? 1 : -1]; => taken
enum { A, B = 5, C }; int a[A == 0 && B == 5 && C == 6 ? 1 : -1]; => taken
enum { A = -3, B, C = A }; int a[B == -2 && C == -3 ? 1 : -1]; => taken
int a[3]; int b[sizeof a / sizeof a[0] == 3 ? 1 : -1]; => taken
int a[(0 && 1 / 0) + 1]; => taken
int a[1 || 1 / 0]; => taken
int a[1 ? 1 : 1 / 0]; => taken
int a[0 ? 1 / 0 : 2]; => taken
int a[(char)3]; => taken
int a[!0]; => taken
int f(void); int a[sizeof f()]; => taken
int i; int a[sizeof(i++)]; => taken
int a[0]; => X7 1
int a[-1]; => X7 1
int a[0u]; => X7 1
int a[3 - 3]; => X7 1
int i; int a[i]; => X8 1
const int n = 3; int a[n]; => X8 1
int i; int a[1 || i]; => X8 1
int i; int a[1 ? 1 : i]; => X8 1
int i; int a[i = 1]; => X5 1
int i; int a[(i = 1)]; => X8 1
int i; int a[(i += 1)]; => X8 1
int i; int a[i++]; => X8 1
int i; int a[--i]; => X8 1
int a[(1, 2)]; => X8 1
int f(void); int a[f()]; => X8 1
int a[1 / 0]; => X8 1
int a[1 % 0]; => X8 1
int a[1u / 0u]; => X8 1
int a[2147483647 + 1]; => X8 1
int a[-2147483647 - 2]; => X8 1
int a[65536 * 65536]; => X8 1
int a[-(-2147483647 - 1)]; => X8 1
int a[(-2147483647 - 1) / -1]; => X8 1
int a[(-2147483647 - 1) % -1 + 1]; => X8 1
int a[1 << 32]; => X8 1
int a[1 << -1]; => X8 1
int a[1 >> 32]; => X8 1
int a[1u << 32]; => X8 1
int a[1 && 1 / 0]; => X8 1
int a[0 || 1 / 0]; => X8 1
int a[0 ? 1 : 1 / 0]; => X8 1
int a[\"a\"]; => X8 1
int a[\"a\"[0]]; => X8 1
int a[*\"a\"]; => X8 1
int a[\"a\" ? 1 : 2]; => X8 1
int a[!(void *)0]; => X8 1
int a[(int *)0 == 0]; => X8 1
int i; int a[&i == &i]; => X8 1
int i; int a[!&i]; => X8 1
int f(void); int a[!f]; => X8 1
int a[(void)0]; => X8 1
struct s { int m; } x; int a[x.m]; => X8 1
struct s { int m; } x; int a[x]; => X8 1
int a[1 * \"a\"]; => X7 1
int a[und]; => X6 1
int i;@int a[@i]; => X8 3
int i;@int a[1 +@i]; => X8 2
int@a[@0@]; => X7 2
enum { A = 2147483647 }; => taken
enum { A = -2147483647 - 1 }; => taken
enum { A = (int)4294967295 }; => taken
enum { A = 1, B = A + 1, C = B << 2 }; => taken
enum { A = 2147483647, B = 0 }; => taken
enum { A = 2147483648 }; => X7 1
enum { A = -2147483648 }; => X7 1
enum { A = 4294967295 }; => X7 1
enum { A = 0xffffffff }; => X7 1
enum { A = -1u }; => X7 1
enum { A = 2147483647,@B }; => X7 2
enum { A =@2147483648 }; => X7 1
enum { A = 2147483647 + 1 }; => X8 1
enum { A =@1 / 0 }; => X8 2
int i; enum { A = i }; => X8 1
enum { A = \"a\" }; => X8 1
enum { A = B, B }; => X6 1
enum { A = A }; => X6 1";
