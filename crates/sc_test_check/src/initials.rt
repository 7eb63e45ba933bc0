// Initialisers (ANSI 3.5.7) and constant initialisers (3.4).

/// A line for each: the text, and what the checker answers.
pub const INITIALS: &str = "int i = 1; => taken
int i = -1; => taken
char c = 300; => taken
unsigned u = -1; => taken
int i = sizeof(int); => taken
int i = { 1 }; => taken
int i = { 1, }; => taken
const int i = 3; => taken
enum e { A } x = A; => taken
enum e { A } x = 77; => taken
int i = 1 ? 2 : 3; => taken
int *p = 0; => taken
int *p = 1 - 1; => taken
int *p = { 0 }; => taken
int *p = (void *)0; => taken
int i; int *p = &i; => taken
int i; int *p = { &i }; => taken
int i; const int *p = &i; => taken
int i; void *p = &i; => taken
int i; char *p = (char *)&i; => taken
int i; int *p = (int *)(void *)&i; => taken
int i; int *p = &*&i; => taken
extern int i; int *p = &i; => taken
static int i; int *p = &i; => taken
int *p; int **q = &p; => taken
int a[3]; int *p = a; => taken
int a[3]; int *p = a + 1; => taken
int a[3]; int *p = 1 + a; => taken
int a[3]; int *p = a - 1; => taken
int a[3]; int *p = &a[1]; => taken
int a[3]; int *p = &1[a]; => taken
int a[3]; int *p = &a[3]; => taken
int a[3]; int *p = a + 5; => taken
int a[3]; char *p = (char *)a + 1; => taken
int a[3]; int (*p)[3] = &a; => taken
int a[2][3]; int *p = a[1]; => taken
int a[2][3]; int *p = &a[1][2]; => taken
int a[2][3]; int *p = *a; => taken
int a[2][3]; int *p = *(a + 1) + 2; => taken
struct s { int m, n; } x; int *p = &x.n; => taken
struct s { int m, n; } x; struct s *p = &x; int *q = &(&x)->n; => taken
struct s { int m[3]; } x; int *p = x.m + 1; => taken
struct n { struct { int m, n; } in; } y; int *p = &y.in.n; => taken
struct s { int m, n; } a[2]; int *p = &a[1].n; => taken
char *p = \"abc\"; => taken
const char *p = \"abc\"; => taken
char *p = \"abc\" + 1; => taken
char *p = &\"abc\"[1]; => taken
char (*p)[4] = &\"abc\"; => taken
int f(void); int (*p)(void) = f; => taken
int f(void); int (*p)(void) = &f; => taken
int f(void); int (*p)(void) = *f; => taken
int f(void); void (*p)(void) = (void (*)(void))f; => taken
int (*p)(void) = 0; => taken
int (*p)(void) = (void *)0; => taken
int (*p)(void) = (int (*)(void))0; => taken
int f(void) { static int i = 3; return i; } => taken
void f(void) { static int i; static int *p = &i; } => taken
void f(void) { extern int i; static int *p = &i; } => taken
void f(void) { static char *p = \"abc\"; } => taken
int *p = &p; => X7 1
void *p = &p; => taken
struct s { struct s *next; } x = { &x }; => taken
int i; int j = i; => X8 1
const int i = 1; int j = i; => X8 1
int *p; int *q = p; => X8 1
int f(void); int i = f(); => X8 1
int i = 1 / 0; => X8 1
int i = 2147483647 + 1; => X8 1
int i; int j = i++; => X8 1
int i; int j = (i = 1); => X8 1
int i = (1, 2); => X8 1
int i; int j = i ? 1 : 2; => X8 1
int i; int j = &i == 0; => X8 1
int i; int j = !&i; => X8 1
int a[3]; int i = &a[1] - &a[0]; => X8 1
int i = \"abc\"[0]; => X8 1
int i = *\"a\"; => X8 1
int i, a[3]; int *p = &a[i]; => X8 1
int i, a[3]; int *p = a + i; => X8 1
int a[3]; int *p = a + 1 / 0; => X8 1
int *q; int *p = &*q; => X8 1
int *q; int *p = &q[1]; => X8 1
struct s { int m; } *q; int *p = &q->m; => X8 1
int **q; int *p = *q; => X8 1
int i; int *p = 1 ? &i : &i; => X8 1
int i; int *p = (0, &i); => X8 1
int i, *q; int *p = (q = &i); => X8 1
int *f(void); int *p = f(); => X8 1
struct s { int m; } x; struct s y = x; => X8 1
void f(void) { int i; static int *p = &i; } => X8 1
void f(int a) { static int *p = &a; } => X8 1
void f(int a) { static int i = a; } => X8 1
void f(int a) { static int b[2] = { 1, a }; } => X8 1
int i = i; => X8 1
int i;@int j =@i; => X8 3
int i;@int a[2] = { 1,@i }; => X8 3
int i = und; => X6 1
int a[2] = { 1, und }; => X6 1
int i = \"a\"; => X7 1
int i; int j = &i; => X7 1
int *p = 1; => X7 1
char *p = (int *)0; => X7 1
int i; char *p = &i; => X7 1
const int i; int *p = &i; => X7 1
int f(void); void (*p)(void) = f; => X7 1
int f(void); void *p = f; => X7 1
int i; int (*p)(void) = &i; => X7 1
struct s { int m; } x = 1; => X7 1
int i =@\"a\"; => X7 2
int i; int j = (int)&i; => X9 ptrint 1
char c = (char)\"a\"; => X9 ptrint 1
int *p = (int *)4; => X9 ptrint 1
int f(void); void *p = (void *)f; => X9 funptr 1
int a[3] = { 1, 2, 3 }; => taken
int a[3] = { 1, 2, 3, }; => taken
int a[3] = { 1 }; => taken
int a[] = { 1, 2 }; => taken
int a[] = { { 1 }, { 2 } }; => taken
int a[2][2] = { { 1, 2 }, { 3, 4 } }; => taken
int a[2][2] = { 1, 2, 3, 4 }; => taken
int a[2][2] = { 1 }; => taken
int a[2][2] = { { 1 }, 2, 3 }; => taken
int a[2][2] = { 1, { 2 } }; => taken
int a[2][2] = { 1, 2, { 3 } }; => taken
int a[][2] = { 1, 2, 3 }; => taken
int a[][2] = { { 1 }, { 2 }, { 3 } }; => taken
struct s { int m, n; } x = { 1, 2 }; => taken
struct s { int m, n; } x = { 1 }; => taken
struct s { int m, n; } x = { { 1 }, 2 }; => taken
struct s { int m, n; } a[2] = { { 1, 2 }, { 3 } }; => taken
struct s { int m, n; } a[2] = { 1, 2, 3 }; => taken
struct s { int m[2]; char n; } x = { { 1, 2 }, 3 }; => taken
struct s { int m[2]; char n; } x = { 1, 2, 3 }; => taken
struct s { int m[2]; char n; } x = { { 1 }, 3 }; => taken
struct n { struct { int m, n; } in; int o; } x = { 1, 2, 3 }; => taken
int i; int *a[] = { 0, &i }; => taken
int a[2] = { 1, 2, 3 }; => X7 1
int a[1] = { 1,@2 }; => X7 1
int a[2][2] = { { 1, 2, 3 } }; => X7 1
int a[2][2] = { { 1 }, { 2 }, { 3 } }; => X7 1
int a[2][2] = { 1, 2, 3, 4, 5 }; => X7 1
int a[2][2] = { 1, { 2, 3 } }; => X7 1
struct s { int m, n; } x = { 1, 2, 3 }; => X7 1
struct s { int m, n; } x = { { 1, 2 } }; => X7 1
struct s { int m, n; } x = { 1, { 2, 3 } }; => X7 1
struct s { int m[2]; char n; } x = { 1, 2, 3, 4 }; => X7 1
struct s { int m[2]; char n; } x = { { 1, 2, 3 } }; => X7 1
int i = { 1, 2 }; => X7 1
int i = { { 1 } }; => X7 1
int *p = { 0, 0 }; => X7 1
int a[2] = 1; => X7 1
int a[2] = { \"a\" }; => X7 1
int b[2]; int a[2] = b; => X7 1
struct t; struct t x = { 1 }; => X7 1
int a[2] = { 1, 2, und }; => X6 1
int i = { 1, und }; => X6 1
char s[4] = \"abc\"; => taken
char s[3] = \"abc\"; => taken
char s[9] = \"abc\"; => taken
char s[] = \"abc\"; => taken
char s[] = { \"abc\" }; => taken
char s[] = { \"abc\", }; => taken
char s[3] = { \"abc\" }; => taken
char s[] = { 'a', 'b' }; => taken
char s[] = \"a\" \"bc\"; => taken
signed char s[] = \"a\"; => taken
unsigned char s[] = \"a\"; => taken
const char s[] = \"a\"; => taken
char s[1] = \"\"; => taken
char s[2][3] = { \"ab\", \"cd\" }; => taken
char s[2][3] = { \"abc\", \"def\" }; => taken
char s[2][3] = { { \"ab\" }, { 'c' } }; => taken
char s[2][3] = { 'a', 'b', 'c', \"de\" }; => taken
char s[][3] = { \"ab\", \"cd\", \"ef\" }; => taken
char *s[] = { \"a\", \"b\" }; => taken
struct s { char n[3]; int i; } x = { \"ab\", 1 }; => taken
struct s { char n[3]; int i; } x = { { \"ab\" }, 1 }; => taken
struct s { char n[3]; int i; } x = { 'a', 'b', 'c', 1 }; => taken
char s[2] = \"abc\"; => X7 1
char s[2] = { \"abc\" }; => X7 1
char s[2][3] = { \"abcd\" }; => X7 1
char s[2] = { \"a\", \"b\" }; => X7 1
char s[] = { \"a\", 'b' }; => X7 1
char s[] = { { \"abc\" } }; => X7 1
char s[2] = { 'a', \"b\" }; => X7 1
char s[] = 'a'; => X7 1
char s = \"a\"; => X7 1
int s[] = \"abc\"; => X7 1
short s[] = { \"a\" }; => X7 1
char s[] = (\"\\400\"); => X7 1
char *p; char s[] = p; => X7 1
void f(int i) { int a = i; } => taken
void f(int i) { int a = { i }; } => taken
void f(int i) { int a = a; } => taken
void f(int i) { int a = sizeof a; } => taken
void f(int i) { int *p = &i; } => taken
void f(int i) { int *p = i ? &i : 0; } => taken
void f(int i) { int a = i, b = a; } => taken
void f(int i) { const int a = i; } => taken
void f(int i) { register int a = i; } => taken
void f(int i) { char s[] = \"abc\"; s[0] = i; } => taken
void f(int i) { int a[3] = { 1, 2 }; } => taken
int g; void f(void) { int *a[2] = { 0, &g }; } => taken
struct s { int m; } y; void f(void) { struct s x = y; } => taken
struct s { int m; } *y; void f(void) { struct s x = *y; } => taken
struct s { int m; } y; void f(void) { struct s x = { 1 }; } => taken
struct s { int m; }; void f(void) { struct s x, y = x; } => taken
struct s { int m; }; void f(void) { const struct s x = { 1 }; struct s y = x; } => taken
struct s { const int m; }; void f(struct s *p) { struct s x = *p; } => taken
void f(int i) { int a[2] = { 1, i }; } => X8 1
void f(int i) { int *a[2] = { 0, &i }; } => X8 1
void f(int i) { int a[2] = {@1,@i@}; } => X8 3
int g(void); void f(void) { int a[1] = { g() }; } => X8 1
struct s { int m; }; void f(int i) { struct s x = { i }; } => X8 1
struct s { int m; } y; struct r { int m; }; void f(void) { struct r x = y; } => X7 1
struct s { int m; } y; void f(void) { struct s x = 1; } => X7 1
void f(int *i) { int a = i; } => X7 1
void f(int i) { int *p = i; } => X7 1
void f(const int *i) { int *p = i; } => X7 1
void f(int i) { int a = { i, i }; } => X7 1
void f(int i) { int a[2] = i; } => X7 1
void f(int i) { int a[2] = { i * 2, 1 }; } => X8 1
void f(void) { int a = und; } => X6 1
void f(int *p) { int@a =@p; } => X7 3
void f(int *p) { int a =@p *@2; } => X7 2
int *p = (int *)0 + 0; => taken
int *p = (int *)0 + 1; => X8 1
struct s { int m, n; }; int *p = &((struct s *)0)->m; => taken
struct s { int m, n; }; int *p = &((struct s *)0)->n; => X8 1";
